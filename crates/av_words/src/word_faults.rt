//! Why words mean no command.
use av_base::Failure;
use av_faults::Fault;

/// Why no command was given.
pub type WordError = Failure<Fault>;
