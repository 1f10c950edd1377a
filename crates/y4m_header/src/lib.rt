//! Header lines of YUV4MPEG2: what a line that is read means, and the line that is written.
//!
//! In layers: why a line is refused (`fault`), its values (`values`), its parameters (`params`), the line (`read`), the
//! beginning of a line (`front`), and the line that is written (`written`). The laws are in `law`.
#![tactic(auto)]

mod fault;
mod front;
pub mod law;
mod params;
mod read;
mod values;
mod written;

pub use fault::HeaderFault;
pub use front::front_fault;
pub use read::read_header;
pub use written::write_header;
