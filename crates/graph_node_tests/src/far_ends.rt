//! The far ends of the links of a node, and pictures that go through them.
ghost use Rattle.std.specs.Prelude.{◌≡◌, All, IfOk, length};
ghost use Rattle.av_base.specs.Shapes.{IsLawful, IsVideo, IsWithinLimits};
ghost use Rattle.link_ports.specs.Ends.{fresh_sender, fresh_receiver};

use av_base::{Format, NoMemory, PixelFormat, Props, Ratio, Shape, TimeBase, VideoProps};
use av_frame::{Edit, Frame, Pools};
use link_ports::{InPort, OutPort, link};
use std::alloc::Global;

/// The shape of pictures of 2x1 samples.
pub(crate) fn small() -> Shape
    ensures lawful { IsLawful result }
    ensures video { IsVideo result.format }
    ensures limits { IsWithinLimits result }
{
    Shape {
        format: Format::Video(PixelFormat::Gray),
        props: Props::Video(VideoProps {
            width: 2,
            height: 1,
            aspect: Ratio { num: 0, den: 1 },
            rate: Ratio { num: 25, den: 1 },
            base: TimeBase { num: 1, den: 25 },
            scan: b'p',
        }),
    }
}

/// A picture of samples of 0.
fn black(alloc: Global, pools: &mut Pools, pts: u8) -> Result<Frame, NoMemory> {
    Ok(Edit::blank(alloc, pools, small(), 0)?.seal(i64::from(pts), 1))
}

/// Links with room for one parcel: the ends that send, and those that take.
pub(crate) fn links(
    alloc: Global,
    count: u32,
) -> Result<(Vec<OutPort<Frame>>, Vec<InPort<Frame>>), NoMemory>
    ensures count { IfOk result (λ ends. (length ends.0.items ≡ count) × (length ends.1.items ≡ count)) }
    ensures outs { IfOk result (λ ends. All (λ s. s ≡ fresh_sender s.link) ends.0.items) }
    ensures ins { IfOk result (λ ends. All (λ r. r ≡ fresh_receiver r.link) ends.1.items) }
{
    let mut outs = Vec::new(alloc);
    let mut ins = Vec::new(alloc);
    for _ in 0..count {
        let (out, into) = link::<Frame>(alloc, 1)?;
        outs.push(out)?;
        ins.push(into)?;
    }
    Ok((outs, ins))
}

/// A turn of the node, or a call at a far end, which has a number if it takes.
#[derive(Clone, Copy, Debug)]
pub(crate) enum Call {
    Turn,
    Send(u8),
    End,
    Look,
    Want(usize),
    Close(usize),
    Take(usize),
}

/// What a call shows.
#[derive(Clone, Copy, Debug, PartialEq, Eq, Drop)]
pub(crate) enum Seen {
    Nothing,
    /// The turn moved.
    Moved,
    /// The turn was idle.
    Idle,
    /// A picture was taken.
    Picture(i64),
    /// The stream has ended.
    End,
    /// The source is wanted.
    Wanted,
    /// The source is closed.
    Closed,
}

/// The far ends of the links of a node of one input.
#[derive(Drop)]
pub(crate) struct FarEnds {
    pub(crate) source: OutPort<Frame>,
    pub(crate) takers: Vec<InPort<Frame>>,
    pub(crate) pools: Pools,
}

impl FarEnds {
    /// Makes a call at a far end, and returns what it shows.
    ///
    /// # Errors
    /// Out of memory.
    pub(crate) fn make(&mut self, alloc: Global, call: Call) -> Result<Seen, NoMemory> {
        match call {
            Call::Turn => Ok(Seen::Nothing),
            Call::Send(pts) => self.send(alloc, pts),
            Call::End => {
                self.source.end();
                Ok(self.look())
            }
            Call::Look => Ok(self.look()),
            Call::Want(output) => Ok(self.note(output, true)),
            Call::Close(output) => Ok(self.note(output, false)),
            Call::Take(output) => self.take(alloc, output),
        }
    }

    /// Sends a picture, if the stream hasn't ended, and looks.
    fn send(&mut self, alloc: Global, pts: u8) -> Result<Seen, NoMemory> {
        if self.source.is_ended() {
            return Ok(Seen::End);
        }
        let frame = black(alloc, &mut self.pools, pts)?;
        match self.source.send(alloc, frame) {
            Ok(()) => Ok(self.look()),
            Err(_) => Err(NoMemory),
        }
    }

    /// What the source knows of the node.
    fn look(&mut self) -> Seen {
        self.source.flush();
        if self.source.closed() {
            Seen::Closed
        } else if self.source.wanted() {
            Seen::Wanted
        } else {
            Seen::Nothing
        }
    }

    /// Notes a want, or the closing, at an output.
    fn note(&mut self, output: usize, is_want: bool) -> Seen {
        if let Some(taker) = self.takers.get_mut(output) {
            if is_want {
                taker.want();
            } else {
                taker.close();
            }
        }
        Seen::Nothing
    }

    /// Takes what came at an output.
    fn take(&mut self, alloc: Global, output: usize) -> Result<Seen, NoMemory> {
        let Some(taker) = self.takers.get_mut(output) else {
            return Ok(Seen::Nothing);
        };
        taker.fill(alloc)?;
        match taker.take() {
            Some(frame) => Ok(Seen::Picture(frame.pts())),
            None if taker.ended() => Ok(Seen::End),
            None => Ok(Seen::Nothing),
        }
    }
}
