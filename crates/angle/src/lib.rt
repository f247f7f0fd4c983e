// Angle and zero: what an axis shows, and the offset that a preset asks for.
#![tactic(auto)]

ghost use Rattle.std.specs.Prelude.{◌≡◌, true, ◌+◌, ◌/◌, ◌≤◌, pos, nat_abs, ◌-ℤ◌};
ghost use Rattle.std.specs.Int.Signed.{mag};
ghost use Rattle.rules.specs.declared.objects.Setting.TheVariants.{Resolution};
ghost use Rattle.rules.specs.Angle.{rounded, steps, q, nearer, sum, rest, turned, turned_if_shifted, angle, shown, offset, zeroed};
ghost use Rattle.rules.specs.Ranges.{inside};
ghost use Rattle.rules.specs.Settings.{within, axis_settings};
ghost use Rattle.angle.specs.OfAxis.{of_axis};

use rules::aborts::Abort;
use rules::objects::Axis;
use rules::parts::Reading;
use rules::settings::{AxisSettings, Settings};
use rules::states;

// What the PDO carries where there is no angle.
const NO_ANGLE: i16 = -32768;

// n / 10 as n / 2 times 13107.25 / 65536: where a core has no divide instruction, the compiler calls a routine for a fixed divisor too.
fn tenth(n: u32) -> u32
    requires { n ≤ 180000 + 500 }
    ensures { result ≡ n / 10 }
{
    (n / 2 * 13107 + n / 8) / 65536
}

fn hundredth(n: u32) -> u32
    requires { n ≤ 180000 + 500 }
    ensures { result ≡ n / 100 }
{
    tenth(tenth(n))
}

fn thousandth(n: u32) -> u32
    requires { n ≤ 180000 + 500 }
    ensures { result ≡ n / 1000 }
{
    tenth(hundredth(n))
}

// An axis's reading, with what its angle goes by: the resolution, and the axis's own settings.
#[derive(Clone, Copy)]
pub struct Tilt {
    pub reading: Reading,
    pub resolution: u16,
    pub settings: AxisSettings,
    pub ghost inside: { inside reading.m ≡ true },
    pub ghost within: { within Resolution resolution ≡ true },
}

impl Tilt {
    // A size over the resolution, rounded: half of it is added, and each resolution has its own divisor; behind 1, 10 and 100 only 1000 is left.
    fn rounded(self, size: u32) -> u32
        requires { size ≤ 180000 }
        ensures { result ≡ rounded size self.resolution }
    {
        let half = self.resolution / 2;
        let n = size + (half as u32);
        match self.resolution {
            1 => n,
            10 => tenth(n),
            100 => hundredth(n),
            _ => thousandth(n),
        }
    }

    // m / r rounded to the nearest whole number, halves away from zero: rounded by its size, with its sign.
    fn steps(self) -> i32
        ensures { result ≡ steps self.reading.m self.resolution }
    {
        let whole = self.rounded(self.reading.m.unsigned_abs()) as i32;
        if self.reading.m < 0 { -whole } else { whole }
    }

    // The steps with the sign that bit 0 of 6011 gives them.
    pub fn q(self) -> i32
        ensures { result ≡ q self.reading.m self.resolution self.settings.operating }
    {
        let whole = self.steps();
        if self.settings.operating % 2 == 1 {
            -whole
        } else {
            whole
        }
    }

    // Both offsets count where bit 1 of 6011 is set.
    fn sum(self) -> i32
        ensures { result ≡ sum self.reading.m self.resolution self.settings.operating self.settings.offset self.settings.differential }
    {
        let signed = self.q();
        let s = self.settings;
        if s.operating / 2 % 2 == 1 {
            signed + (s.offset as i32) + (s.differential as i32)
        } else {
            signed
        }
    }

    // What whole turns leave of a way up: behind a turn's power of two 16 bits hold it, and of 16 bits a fixed divisor is a product on every core.
    fn rest(self, n: u32) -> u32
        requires { n ≤ 360000 + 65537 + 360000 / self.resolution }
        ensures { result ≡ rest (360000 / self.resolution) (pos n) }
    {
        match self.resolution {
            1 => n - ((n / 64) as u16 / 5625) as u32 * 360000,
            10 => n - ((n / 32) as u16 / 1125) as u32 * 36000,
            100 => n - ((n / 16) as u16 / 225) as u32 * 3600,
            _ => n - ((n / 8) as u16 / 45) as u32 * 360,
        }
    }

    // Moved by whole turns until it is above −180,000 / r and at most 180,000 / r: as far below that as whole turns leave of the way up.
    fn turned(self, z: i32) -> i32
        requires { mag z ≤ 65536 + 180000 / self.resolution }
        ensures { result ≡ turned self.resolution z }
    {
        let half = self.rounded(180000);
        let left = self.rest(way_up(z, half));
        (half as i32) - (left as i32)
    }

    // Where bit 1 of 6011 is set, the sum is first moved by whole turns.
    fn turned_if_shifted(self, z: i32) -> i32
        requires { mag z ≤ 65536 + 180000 / self.resolution }
        ensures { result ≡ turned_if_shifted self.resolution self.settings.operating z }
    {
        if self.settings.operating / 2 % 2 == 1 {
            self.turned(z)
        } else {
            z
        }
    }

    // The angle of the last good reading.
    pub fn angle(self) -> i16
        ensures { result ≡ angle self.reading.m self.resolution self.settings.operating self.settings.offset self.settings.differential }
    {
        nearer(self.turned_if_shifted(self.sum()))
    }

    // What the PDO carries of the axis.
    pub fn shown(self) -> i16
        ensures { result ≡ shown self.reading self.resolution self.settings }
    {
        if self.reading.state == states::GOOD {
            self.angle()
        } else {
            NO_ANGLE
        }
    }

    // The offset of a preset, whole: it may not fit 16 bits.
    fn offset(self, preset: i16) -> i32
        ensures { result ≡ offset self.reading.m self.resolution self.settings.operating self.settings.differential preset }
    {
        let signed = self.q();
        (preset as i32) - signed - (self.settings.differential as i32)
    }

    // What a preset makes of the axis.
    pub fn zeroed(self, preset: i16) -> Result<i16, Abort>
        ensures { result ≡ zeroed self.reading self.resolution self.settings.operating self.settings.differential preset }
    {
        if self.reading.state != states::GOOD {
            return Err(Abort::AxisNotGood);
        }
        match i16::try_from(self.offset(preset)) {
            Ok(offset) => Ok(offset),
            Err(_) => Err(Abort::WrongValue),
        }
    }
}

// Both axes' readings, with the settings that their angles go by.
#[derive(Clone, Copy)]
pub struct Axes {
    pub x: Reading,
    pub y: Reading,
    pub settings: Settings,
    pub ghost x_inside: { inside x.m ≡ true },
    pub ghost y_inside: { inside y.m ≡ true },
    pub ghost within: { within Resolution settings.resolution ≡ true },
}

impl Axes {
    // One axis by itself.
    pub fn tilt(self, axis: Axis) -> Tilt
        ensures { (result.reading ≡ of_axis axis self.x self.y)
            × ((result.resolution ≡ self.settings.resolution)
            × (result.settings ≡ axis_settings axis self.settings)) }
    {
        let resolution = self.settings.resolution;
        match axis {
            Axis::X => Tilt {
                reading: self.x,
                resolution,
                settings: self.settings.x,
            },
            Axis::Y => Tilt {
                reading: self.y,
                resolution,
                settings: self.settings.y,
            },
        }
    }
}

// The way from z up to half a turn, with 360,000 steps more, whole turns at each resolution: so it is not below 0.
fn way_up(z: i32, half: u32) -> u32
    requires { (half ≤ 180000) × (mag z ≤ 65536 + half) }
    ensures { pos result ≡ pos (360000 + half) -ℤ z }
{
    (((360000 + half) as i32) - z) as u32
}

// Brought into −32,767 to 32,767: −32,768 is no angle.
fn nearer(z: i32) -> i16
    ensures { result ≡ nearer 32767 z }
{
    z.clamp(-32767, 32767) as i16
}
