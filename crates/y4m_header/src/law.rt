//! The law of header lines.
ghost use Rattle.y4m_header.specs.HeaderLaws.{HeadersHaveOneMeaning};

/// A header line has exactly one meaning, always, and a written one that of its shape. Its contract is the law; the call
/// does nothing.
pub fn headers_have_one_meaning()
    ensures { HeadersHaveOneMeaning }
{}
