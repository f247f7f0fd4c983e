// The object table: which object an index and a subindex name, and so a request.
#![tactic(auto)]

ghost use Rattle.std.specs.Prelude.{◌≡◌};
ghost use Rattle.rules.specs.Objects.{on_pdo, object_at};
ghost use Rattle.rules.specs.Requests.{index_of, subindex_of};
ghost use Rattle.objects.specs.Rows.{counted_at, only_at, server_at};

use rules::aborts::Abort;
use rules::objects::{Axis, Channel, Fixed, Object, PdoNumber, PdoSetting, Setting};

// An index with the one subindex 0.
fn only(subindex: u8, o: Object) -> Result<Object, Abort>
    ensures { result ≡ only_at subindex o }
{
    if subindex == 0 {
        Ok(o)
    } else {
        Err(Abort::NoSubindex)
    }
}

#[tactic(auto, unfolding(rules::specs::Objects::find))]
fn error_list(subindex: u8) -> Result<Object, Abort>
    ensures { result ≡ object_at 0x1003 subindex }
{
    match subindex {
        0 => Ok(Object::ErrorCount),
        1..=5 => Ok(Object::ErrorEntry(subindex)),
        _ => Err(Abort::NoSubindex),
    }
}

// 1010 and 1011: how many there are, and the one.
fn counted(count: Fixed, one: Object, subindex: u8) -> Result<Object, Abort>
    ensures { result ≡ counted_at count one subindex }
{
    match subindex {
        0 => Ok(Object::Const(count)),
        1 => Ok(one),
        _ => Err(Abort::NoSubindex),
    }
}

#[tactic(auto, unfolding(rules::specs::Objects::find))]
fn identity(subindex: u8) -> Result<Object, Abort>
    ensures { result ≡ object_at 0x1018 subindex }
{
    let f = match subindex {
        0 => Fixed::IdentityCount,
        1 => Fixed::Vendor,
        2 => Fixed::Product,
        3 => Fixed::Revision,
        4 => Fixed::Serial,
        _ => return Err(Abort::NoSubindex),
    };
    Ok(Object::Const(f))
}

// 1200 and 1201.
fn server(channel: Channel, subindex: u8) -> Result<Object, Abort>
    ensures { result ≡ server_at channel subindex }
{
    let f = match subindex {
        0 => Fixed::ServerCount(channel),
        1 => Fixed::RequestIdentifier(channel),
        2 => Fixed::ReplyIdentifier(channel),
        _ => return Err(Abort::NoSubindex),
    };
    Ok(Object::Const(f))
}

// A PDO's settings.
#[tactic(auto, unfolding(rules::specs::Objects::find))]
fn pdo(number: PdoNumber, subindex: u8) -> Result<Object, Abort>
    ensures { result ≡ object_at (on_pdo number) subindex }
{
    let part = match subindex {
        0 => return Ok(Object::Const(Fixed::PdoCount(number))),
        1 => PdoSetting::On,
        2 => PdoSetting::Transmission,
        5 => PdoSetting::Timer,
        _ => return Err(Abort::NoSubindex),
    };
    Ok(Object::Of(Setting::Pdo(number, part)))
}

#[tactic(auto, unfolding(rules::specs::Objects::find))]
fn mapping(subindex: u8) -> Result<Object, Abort>
    ensures { result ≡ object_at 0x1A00 subindex }
{
    let f = match subindex {
        0 => Fixed::MappingCount,
        1 => Fixed::Mapped(Axis::X),
        2 => Fixed::Mapped(Axis::Y),
        _ => return Err(Abort::NoSubindex),
    };
    Ok(Object::Const(f))
}

pub fn object_at(index: u16, subindex: u8) -> Result<Object, Abort>
    ensures { result ≡ object_at index subindex }
{
    let o = match index {
        0x1000 => Object::Const(Fixed::DeviceType),
        0x1001 => Object::Const(Fixed::ErrorRegister),
        0x1003 => return error_list(subindex),
        0x1005 => Object::Const(Fixed::SyncIdentifier),
        0x1008 => Object::Name,
        0x1010 => return counted(Fixed::SaveCount, Object::Save, subindex),
        0x1011 => return counted(Fixed::LoadCount, Object::Load, subindex),
        0x1014 => Object::Const(Fixed::EmergencyIdentifier),
        0x1017 => Object::Of(Setting::Heartbeat),
        0x1018 => return identity(subindex),
        0x1200 => return server(Channel::One, subindex),
        0x1201 => return server(Channel::Two, subindex),
        0x1800 => return pdo(PdoNumber::First, subindex),
        0x1A00 => return mapping(subindex),
        0x2100 => Object::Filled,
        0x2101 => Object::Const(Fixed::Blocks),
        0x6000 => Object::Of(Setting::Resolution),
        0x6010 => Object::Angle(Axis::X),
        0x6011 => Object::Of(Setting::Operating(Axis::X)),
        0x6012 => Object::Of(Setting::Preset(Axis::X)),
        0x6013 => Object::Of(Setting::Offset(Axis::X)),
        0x6014 => Object::Of(Setting::Differential(Axis::X)),
        0x6020 => Object::Angle(Axis::Y),
        0x6021 => Object::Of(Setting::Operating(Axis::Y)),
        0x6022 => Object::Of(Setting::Preset(Axis::Y)),
        0x6023 => Object::Of(Setting::Offset(Axis::Y)),
        0x6024 => Object::Of(Setting::Differential(Axis::Y)),
        _ => return Err(Abort::NoObject),
    };
    only(subindex, o)
}

// The object that a request names by its bytes 1 to 3.
pub fn named_by(request: [u8; 8]) -> Result<Object, Abort>
    ensures { result ≡ object_at (index_of request) (subindex_of request) }
{
    object_at(requests::index(request), requests::subindex(request))
}
