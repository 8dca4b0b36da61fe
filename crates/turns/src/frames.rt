// The first three bytes of a frame: its destination and its caller.
ghost use Rattle.std.specs.Prelude.{◌≡◌, ◌≤◌, length};
ghost use Rattle.turns.specs.Turns.{FrameSays, frame_caller, frame_goal, least_frame};

use rack::bytes::number_at;
use rack::refused::Refused;

// A frame has a destination of two bytes, and a caller of one.
pub const LEAST_FRAME: usize = 3;

// A frame's destination.
pub fn frame_goal(frame: &[u8]) -> u32
    requires { least_frame ≤ length frame.now }
    ensures { result ≡ frame_goal frame.now }
{
    number_at(frame, 0) as u32
}

// A frame's caller.
pub fn frame_caller(frame: &[u8]) -> u32
    requires { least_frame ≤ length frame.now }
    ensures { result ≡ frame_caller frame.now }
{
    u32::from(frame[2])
}

// A frame's destination and its caller, who may be over 15.
#[derive(Clone, Copy, Debug, PartialEq, Eq)]
pub struct Frame {
    pub goal: u32,
    pub caller: usize,
}

impl Frame {
    // The first bytes of a frame, or 19.
    pub fn read(bytes: &[u8]) -> Result<Frame, Refused>
        ensures { FrameSays bytes.now result }
    {
        if bytes.len() < LEAST_FRAME {
            return Err(Refused::NoFrame);
        }
        Ok(Frame {
            goal: frame_goal(bytes),
            caller: frame_caller(bytes) as usize,
        })
    }
}
