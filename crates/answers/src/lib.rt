// The answer to an event or a power-on: the refusal, and the frames that are sent.
#![tactic(auto)]

pub mod refusal;

ghost use Rattle.std.specs.Prelude.{◌≡◌, [], ◌∷◌, ◌++◌};
ghost use Rattle.rules.specs.Frames;
ghost use Rattle.rules.specs.Frames.{pdo_frame, reply_frames};
ghost use Rattle.rules.specs.Network;
ghost use Rattle.rules.specs.Time.{when_due};
ghost use Rattle.answers.specs.Answers.{answering};
ghost use Rattle.answers.specs.Refusals.{refusal_number};

use crate::refusal::Refusal;
use angle::Axes;
use rules::events::Frame;
use rules::objects::PdoNumber;
use rules::requests::Caller;
use rules::states;

// The most frames of one answer.
pub const MOST_FRAMES: usize = 2;

// The number of the refusal, 0 where there is none, and the frames in their order; the places past the count are all zero.
#[repr(C)]
#[derive(Clone, Copy)]
pub struct Answer {
    pub refusal: u16,
    pub count: u16,
    pub frames: [Frame; MOST_FRAMES],
}

impl Answer {
    // No frame is sent.
    pub fn silent() -> Self
        ensures { result ≡ answering 0 [] }
    {
        Answer {
            refusal: 0,
            count: 0,
            frames: [frames::none(), frames::none()],
        }
    }

    // A refusal sends nothing.
    pub fn refused(refusal: Refusal) -> Self
        ensures { result ≡ answering (refusal_number refusal) [] }
    {
        Answer {
            refusal: refusal.into(),
            ..Answer::silent()
        }
    }

    pub fn one(first: Frame) -> Self
        ensures { result ≡ answering 0 (first ∷ []) }
    {
        Answer {
            refusal: 0,
            count: 1,
            frames: [first, frames::none()],
        }
    }

    pub fn two(first: Frame, second: Frame) -> Self
        ensures { result ≡ answering 0 (first ∷ second ∷ []) }
    {
        Answer {
            refusal: 0,
            count: 2,
            frames: [first, second],
        }
    }
}

// The heartbeat where it is due, and then the PDO where it is.
pub fn timed(
    beats: bool,
    sends: bool,
    number: PdoNumber,
    node: u8,
    network: u8,
    axes: Axes,
) -> Answer
    ensures { result ≡ answering 0 (when_due beats (Frames.heartbeat_frame node network) ++ when_due sends (pdo_frame number node axes.x axes.y axes.settings)) }
{
    if !sends {
        if beats {
            return Answer::one(frames::heartbeat(node, network));
        }
        return Answer::silent();
    }
    let pdo = frames::pdo(number, node, axes);
    if beats {
        return Answer::two(frames::heartbeat(node, network), pdo);
    }
    Answer::one(pdo)
}

// The reply to a caller, or none.
pub fn replied(reply: Option<[u8; 8]>, caller: Caller, node: u8) -> Answer
    ensures { result ≡ answering 0 (reply_frames caller node reply) }
{
    match reply {
        Some(bytes) => Answer::one(frames::reply(caller, node, bytes)),
        None => Answer::silent(),
    }
}

// Boot-up, and behind it the emergency of a spoiled journal.
pub fn booted(node: u8, spoiled: u8) -> Answer
    ensures { result ≡ answering 0 (Network.booted node spoiled) }
{
    let first = frames::boot_up(node);
    if spoiled == 0 {
        return Answer::one(first);
    }
    let register = frames::register(spoiled, states::NONE, states::NONE);
    Answer::two(first, frames::emergency(node, 0xFF00, register))
}
