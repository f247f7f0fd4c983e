// The bench of the trace program: lines of events in, the sensor's frames or a refusal out.
#![tactic(auto)]

use answers::Answer;
use device::{Device, Stepped};
use plain_lines::Line;
use rules::parts::Identity;
use std::io;
use std::io::{Input, Read};
use texts::Text;

const LINE_FEED: u8 = b'\n';

// The sensor and its journal, and the line that is being read.
#[derive(Drop)]
struct Bench {
    device: Device,
    journal: [[u8; 512]; 2],
    line: Text,
}

fn print(rt: &impl Print, text: &Text) -> io::Result<()> {
    if let Some(line) = text.line() {
        rt.write_all(line)?;
    }
    Ok(())
}

fn print_refusal(rt: &impl Print, refusal: u16) -> io::Result<()> {
    if refusal != 0 {
        print(rt, &printing::refusal_text(refusal))?;
    }
    Ok(())
}

fn print_answer(rt: &impl Print, answer: &Answer) -> io::Result<()> {
    print_refusal(rt, answer.refusal)?;
    for frame in answer.frames.iter().take(usize::from(answer.count)) {
        print(rt, &printing::frame_text(*frame))?;
    }
    Ok(())
}

impl Bench {
    fn new() -> Self {
        Bench {
            device: power_on::zero_record(),
            journal: [image::blank(); 2],
            line: Text::empty(),
        }
    }

    fn take_answer(&mut self, rt: &impl Print, stepped: &Stepped) -> io::Result<()> {
        self.device = stepped.device;
        print_answer(rt, &stepped.answer)
    }

    // On two fresh blank blocks.
    fn power_on(&mut self, rt: &impl Print, node: u8) -> io::Result<()> {
        self.journal = [image::blank(); 2];
        let identity = Identity {
            vendor: 0,
            product: 0,
            revision: 0,
            serial: 0,
        };
        let journal = self.journal.as_flattened();
        let stepped = power_on::power_on(u32::from(node), identity, journal);
        self.take_answer(rt, &stepped)
    }

    // One whole line.
    fn run(&mut self, rt: &impl Print) -> io::Result<()> {
        let read = lines::read(&self.line);
        let Ok(parsed) = read else {
            return print_refusal(rt, u16::from(lines::refusal(read)));
        };
        match parsed.line {
            Line::PowerOn(node) => self.power_on(rt, node),
            Line::Happens(event) => {
                let journal = self.journal.as_flattened_mut();
                let stepped = self
                    .device
                    .event(journal, event, parsed.bytes, parsed.length);
                self.take_answer(rt, &stepped)
            }
        }
    }

    fn take(&mut self, rt: &impl Print, b: u8) -> io::Result<()> {
        if b == LINE_FEED {
            self.run(rt)?;
            self.line = Text::empty();
        } else {
            self.line.push(b);
        }
        Ok(())
    }
}

// Follows standard input to its end. A proved loop has to end, and nothing says that the input does: the turns are more
// than any run uses up.
pub fn follow(rt: &(impl Print + Input)) -> io::Result<()> {
    let mut bench = Bench::new();
    let mut input = rt.reader();
    for _ in 0..u64::MAX {
        let mut chunk = [0u8; 4096];
        let n = input.read(&mut chunk)?;
        if n == 0 {
            break;
        }
        for b in &chunk[..n] {
            bench.take(rt, *b)?;
        }
    }
    if !bench.line.is_empty() {
        bench.run(rt)?;
    }
    Ok(())
}
