// The settings: what a block of the journal carries, with its factory values and the ends of its ranges.
ghost use Rattle.std.specs.Prelude.{◌≡◌};
ghost use Rattle.rules.specs.Settings.{factory, axis_factory, pdo_factory, axis_settings, pdo_settings, with_axis, with_pdo};

use crate::objects::{Axis, PdoNumber};

// 6011 to 6014, or 6021 to 6024.
#[repr(C)]
#[derive(Clone, Copy)]
pub struct AxisSettings {
    pub operating: u16,
    pub preset: i16,
    pub offset: i16,
    pub differential: i16,
}

// 1800: on is 1 or 0; the transmission type is subindex 2, the timer subindex 5.
#[repr(C)]
#[derive(Clone, Copy)]
pub struct PdoSettings {
    pub on: u8,
    pub transmission: u8,
    pub timer: u16,
}

// 1017, 1800, 6000 and each axis's own.
#[repr(C)]
#[derive(Clone, Copy)]
pub struct Settings {
    pub heartbeat: u16,
    pub pdo: PdoSettings,
    pub resolution: u16,
    pub x: AxisSettings,
    pub y: AxisSettings,
}

impl AxisSettings {
    pub const MOST_OPERATING: u16 = 3;

    pub fn factory() -> Self
        ensures { result ≡ axis_factory }
    {
        AxisSettings {
            operating: 0,
            preset: 0,
            offset: 0,
            differential: 0,
        }
    }
}

impl PdoSettings {
    pub const LEAST_SYNCHRONOUS: u8 = 1;

    pub const MOST_SYNCHRONOUS: u8 = 240;

    pub const LEAST_TIMED: u8 = 254;

    pub const MOST_TIMED: u8 = 255;

    pub const MOST_TIMER: u16 = 65535;

    pub fn factory() -> Self
        ensures { result ≡ pdo_factory }
    {
        PdoSettings {
            on: 1,
            transmission: PdoSettings::LEAST_TIMED,
            timer: 100,
        }
    }
}

impl Settings {
    pub const LEAST_PERIOD: u16 = 25;

    pub const MOST_PERIOD: u16 = 65535;

    pub fn factory() -> Self
        ensures { result ≡ factory }
    {
        Settings {
            heartbeat: 0,
            pdo: PdoSettings::factory(),
            resolution: 10,
            x: AxisSettings::factory(),
            y: AxisSettings::factory(),
        }
    }

    // One axis's own, or one PDO's, and the settings with them changed.
    pub fn axis(self, axis: Axis) -> AxisSettings
        ensures { result ≡ axis_settings axis self }
    {
        match axis {
            Axis::X => self.x,
            Axis::Y => self.y,
        }
    }

    pub fn with_axis(mut self, axis: Axis, changed: AxisSettings) -> Self
        ensures { result ≡ with_axis axis changed self }
    {
        match axis {
            Axis::X => self.x = changed,
            Axis::Y => self.y = changed,
        }
        self
    }

    pub fn pdo(self, number: PdoNumber) -> PdoSettings
        ensures { result ≡ pdo_settings number self }
    {
        match number {
            PdoNumber::First => self.pdo,
        }
    }

    pub fn with_pdo(mut self, number: PdoNumber, changed: PdoSettings) -> Self
        ensures { result ≡ with_pdo number changed self }
    {
        match number {
            PdoNumber::First => self.pdo = changed,
        }
        self
    }
}
