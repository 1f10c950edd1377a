//! Names of filters that are still to be built.
ghost use Rattle.std.specs.Prelude.{◌≡◌};
ghost use Rattle.av_filter.specs.Words.{word_in};
ghost use Rattle.node_core.specs.Kinds.{later_names};

/// A filter that is still to be built.
#[derive(Clone, Copy, Debug, PartialEq, Eq)]
pub(crate) struct Later;

/// The filter of a name, if it is still to be built.
pub(crate) fn later_in(text: &str) -> Option<Later>
    ensures { result ≡ word_in later_names text.now }
{
    match text {
        "overlay" | "hstack" | "vstack" | "xstack" | "alphamerge" | "blend" => Some(Later),
        "trim" | "atrim" | "fps" | "setpts" | "asetpts" | "framestep" => Some(Later),
        "loop" | "reverse" | "areverse" => Some(Later),
        "split" | "asplit" | "extractplanes" | "alphaextract" => Some(Later),
        "channelsplit" | "concat" => Some(Later),
        "volume" | "channelmap" | "amerge" | "asetnsamples" => Some(Later),
        "apad" | "adelay" | "aformat" | "anull" => Some(Later),
        _ => None,
    }
}
