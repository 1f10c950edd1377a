//! The law of files.
ghost use Rattle.y4m_io.specs.Files.{FilesHaveOneOutcome};

/// All bytes come to one thing, always: a header or why it is refused, and after a header whole frames or the first damage,
/// each within the limit of bytes. The whole text that is written of frames is a file of these frames and of no others. Its
/// contract is the law; the call does nothing.
pub fn files_have_one_outcome()
    ensures { FilesHaveOneOutcome }
{}
