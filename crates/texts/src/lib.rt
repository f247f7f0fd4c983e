// A line of the trace program held in constant memory.
#![tactic(auto)]

ghost use Rattle.std.specs.Prelude.{◌≡◌, ◌↔◌, ◌<◌, ◌≤◌, [], take, IsTrue, MatchOption};
ghost use Rattle.texts.specs.Texts.{longer, text_of};

// The first 32 bytes of a line, 0 past its end; the length 33 marks a longer line.
#[derive(Clone, Copy)]
pub struct Text {
    pub bytes: [u8; 32],
    pub length: u8,
}

impl Text {
    pub const MOST: u8 = 32;

    #[tactic(auto, unfolding(crate::specs::Texts::text_of))]
    pub fn empty() -> Self
        ensures { result ≡ text_of [] }
    {
        Text {
            bytes: [0; 32],
            length: 0,
        }
    }

    // One byte more.
    #[tactic(auto, unfolding(crate::specs::Texts::longer))]
    pub fn push(&mut self, b: u8)
        ensures { self.new ≡ longer self.old b }
    {
        if self.length < Text::MOST {
            self.bytes[usize::from(self.length)] = b;
            self.length += 1;
        } else {
            self.length = Text::MOST + 1;
        }
    }

    pub fn with(mut self, b: u8) -> Self
        ensures { result ≡ longer self b }
    {
        self.push(b);
        self
    }

    // The whole line; none where it is longer than what is held.
    pub fn line(&self) -> Option<&[u8]>
        ensures { MatchOption result (32 < self.now.length) (λ line. (self.now.length ≤ 32) × (line.now ≡ take self.now.length self.now.bytes)) }
    {
        self.bytes.get(..usize::from(self.length))
    }

    // No byte was pushed yet.
    pub fn is_empty(&self) -> bool
        ensures { IsTrue result ↔ (self.now.length ≡ 0) }
    {
        self.length == 0
    }
}
