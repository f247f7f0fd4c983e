// The number that an object reads as: one that no request changes, or a setting.
#![tactic(auto)]

ghost use Rattle.std.specs.Prelude.{◌≡◌};
ghost use Rattle.rules.specs.declared.objects.PdoSetting.TheVariants.{On};
ghost use Rattle.rules.specs.Reads.{mapping as mappingOf, fixed_value, pdo_value, setting_value};
ghost use Rattle.rules.specs.Readings.{register_of};
ghost use Rattle.rules.specs.Settings.{pdo_setting, setting};
ghost use Rattle.view.specs.Seen.{viewed};

use rules::objects::{Axis, Fixed, PdoNumber, PdoSetting, Setting};
use rules::settings::PdoSettings;
use view::View;

fn mapping(axis: Axis) -> u32
    ensures { result ≡ mappingOf axis }
{
    match axis {
        Axis::X => 0x60100010,
        Axis::Y => 0x60200010,
    }
}

// The objects that no request changes.
#[tactic(auto, unfolding(rules::specs::Reads::fixed_value))]
pub fn fixed_value(f: Fixed, v: View) -> u32
    ensures { result ≡ fixed_value f (register_of (viewed v)) v.node v.identity v.blocks }
{
    let node = u32::from(v.node);
    match f {
        Fixed::DeviceType => 0x0002019A,
        Fixed::ErrorRegister => u32::from(frames::register(
            v.spoiled,
            v.axes.x.state,
            v.axes.y.state,
        )),
        Fixed::SyncIdentifier => 0x80,
        Fixed::SaveCount => 1,
        Fixed::LoadCount => 1,
        Fixed::EmergencyIdentifier => 0x80 + node,
        Fixed::IdentityCount => 4,
        Fixed::Vendor => v.identity.vendor,
        Fixed::Product => v.identity.product,
        Fixed::Revision => v.identity.revision,
        Fixed::Serial => v.identity.serial,
        Fixed::ServerCount(_) => 2,
        Fixed::RequestIdentifier(channel) => u32::from(frames::requests_at(channel)) + node,
        Fixed::ReplyIdentifier(channel) => u32::from(frames::replies_at(channel)) + node,
        Fixed::PdoCount(_) => 5,
        Fixed::MappingCount => 2,
        Fixed::Mapped(axis) => mapping(axis),
        Fixed::Blocks => u32::from(v.blocks),
    }
}

// 1800:1 by its on mark.
fn on_value(number: PdoNumber, node: u8, on: u8) -> u32
    ensures { result ≡ pdo_value number On node on }
{
    let identifier = u32::from(frames::pdo_at(number)) + u32::from(node);
    if on == 0 {
        0xC0000000 + identifier
    } else {
        0x40000000 + identifier
    }
}

fn pdo_value(number: PdoNumber, part: PdoSetting, s: PdoSettings, node: u8) -> u32
    ensures { result ≡ pdo_value number part node (pdo_setting part s) }
{
    match part {
        PdoSetting::On => on_value(number, node, s.on),
        PdoSetting::Transmission => u32::from(s.transmission),
        PdoSetting::Timer => u32::from(s.timer),
    }
}

// A setting as the number that is read.
pub fn setting_value(s: Setting, v: View) -> u32
    ensures { result ≡ setting_value s v.node (setting s v.axes.settings) }
{
    match s {
        Setting::Heartbeat => v.axes.settings.heartbeat as u32,
        Setting::Pdo(number, part) => pdo_value(number, part, v.axes.settings.pdo(number), v.node),
        Setting::Resolution => v.axes.settings.resolution as u32,
        Setting::Operating(axis) => v.axes.settings.axis(axis).operating as u32,
        Setting::Preset(axis) => v.axes.settings.axis(axis).preset.cast_unsigned() as u32,
        Setting::Offset(axis) => v.axes.settings.axis(axis).offset.cast_unsigned() as u32,
        Setting::Differential(axis) => v
            .axes
            .settings
            .axis(axis)
            .differential
            .cast_unsigned() as u32,
    }
}
