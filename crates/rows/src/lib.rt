// A row of the object table: an object's length in bytes, and whether it is written.
#![tactic(auto)]

ghost use Rattle.std.specs.Prelude.{◌≡◌};
ghost use Rattle.rules.specs.Objects.{pdo_size, row_of, setting_row, fixed_row};

use rules::objects::{Fixed, Object, PdoSetting, Setting};

pub fn fixed_size(f: Fixed) -> u8
    ensures { result ≡ (fixed_row f).size }
{
    match f {
        Fixed::ErrorRegister
        | Fixed::SaveCount
        | Fixed::LoadCount
        | Fixed::IdentityCount
        | Fixed::ServerCount(_)
        | Fixed::PdoCount(_)
        | Fixed::MappingCount => 1,
        Fixed::Blocks => 2,
        _ => 4,
    }
}

fn pdo_size(part: PdoSetting) -> u8
    ensures { result ≡ pdo_size part }
{
    match part {
        PdoSetting::On => 4,
        PdoSetting::Transmission => 1,
        PdoSetting::Timer => 2,
    }
}

pub fn setting_size(s: Setting) -> u8
    ensures { result ≡ (setting_row s).size }
{
    match s {
        Setting::Pdo(_, part) => pdo_size(part),
        Setting::Operating(_) => 1,
        _ => 2,
    }
}

pub fn size(o: Object) -> u8
    ensures { result ≡ (row_of o).size }
{
    match o {
        Object::Const(f) => fixed_size(f),
        Object::ErrorCount => 1,
        Object::Filled | Object::Angle(_) => 2,
        Object::ErrorEntry(_) | Object::Save | Object::Load => 4,
        Object::Name => 10,
        Object::Of(s) => setting_size(s),
    }
}

pub fn is_writable(o: Object) -> bool
    ensures { result ≡ (row_of o).writable }
{
    match o {
        Object::ErrorCount | Object::Save | Object::Load => true,
        Object::Of(s) => !matches!(s, Setting::Offset(_)),
        _ => false,
    }
}
