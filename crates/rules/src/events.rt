// What moves the device, and the frames that it sends.
use crate::objects::Axis;

// A received frame; its bytes stand beside it.
#[derive(Clone, Copy)]
pub struct FrameHead {
    pub identifier: u32,
    pub remote: bool,
}

#[derive(Clone, Copy)]
pub enum Event {
    Received(FrameHead),
    Tick(u16),
    Measured(Axis, i32),
}

// A sent frame: the bytes past its length are 0.
#[repr(C)]
#[derive(Clone, Copy)]
pub struct Frame {
    pub identifier: u16,
    pub length: u16,
    pub bytes: [u8; 8],
}
