//! The variables of expressions.
ghost use Rattle.std.specs.Prelude.{◌≡◌, ◌^◌, ◌↔◌, ℕ, IsTrue, bit_or};
ghost use Rattle.std.specs.Int.{IsBitSet};
ghost use Rattle.av_expr.specs.Vars.{order, variable_named, together};

/// A variable.
#[derive(Clone, Copy, Debug, PartialEq, Eq)]
pub enum Var {
    /// The width of the input: `iw`, `in_w`.
    InW,
    /// The height of the input: `ih`, `in_h`.
    InH,
    /// The width of the output: `ow`, `out_w`.
    OutW,
    /// The height of the output: `oh`, `out_h`.
    OutH,
    /// The chroma step across, 1 or 2: `hsub`.
    Hsub,
    /// The chroma step down, 1 or 2: `vsub`.
    Vsub,
    /// The width of the main input: `W`, `main_w`.
    MainW,
    /// The height of the main input: `H`, `main_h`.
    MainH,
    /// The width of the overlaid input: `w`, `overlay_w`.
    OverW,
    /// The height of the overlaid input: `h`, `overlay_h`.
    OverH,
    /// The sample: `val`.
    Val,
    /// The lowest lawful sample: `minval`.
    MinVal,
    /// The greatest lawful sample: `maxval`.
    MaxVal,
    /// The negated sample: `negval`.
    NegVal,
    /// The timestamp: `PTS`.
    Pts,
    /// The first timestamp: `STARTPTS`.
    StartPts,
    /// The number of frames or samples before: `N`.
    N,
    /// The unit of timestamps: `TB`.
    Tb,
}

impl Var {
    /// The variable's number, in the order of the variants.
    pub(crate) fn order(self) -> u32
        ensures { result ≡ order self }
    {
        self as u32
    }

    /// The variable that a name spells.
    pub(crate) fn named(name: &str) -> Option<Var>
        ensures { result ≡ variable_named name.now }
    {
        match name {
            "iw" | "in_w" => Some(Var::InW),
            "ih" | "in_h" => Some(Var::InH),
            "ow" | "out_w" => Some(Var::OutW),
            "oh" | "out_h" => Some(Var::OutH),
            "hsub" => Some(Var::Hsub),
            "vsub" => Some(Var::Vsub),
            "W" | "main_w" => Some(Var::MainW),
            "H" | "main_h" => Some(Var::MainH),
            "w" | "overlay_w" => Some(Var::OverW),
            "h" | "overlay_h" => Some(Var::OverH),
            "val" => Some(Var::Val),
            "minval" => Some(Var::MinVal),
            "maxval" => Some(Var::MaxVal),
            "negval" => Some(Var::NegVal),
            "PTS" => Some(Var::Pts),
            "STARTPTS" => Some(Var::StartPts),
            "N" => Some(Var::N),
            "TB" => Some(Var::Tb),
            _ => None,
        }
    }
}

/// A set of variables. Bit i means the i-th variable.
#[derive(Clone, Copy, Debug, PartialEq, Eq)]
pub struct VarSet {
    /// The bits.
    pub bits: u32,
}

impl VarSet {
    /// The set without variables.
    pub const NONE: VarSet = VarSet { bits: 0 };

    /// The set of these variables.
    pub fn of(vars: &[Var]) -> VarSet
        ensures { result.bits ≡ together vars.now }
    {
        let mut set = VarSet::NONE;
        'vars: for var in vars {
            set = set.with(*var);
        }
        set
    }

    /// The set with one more variable.
    pub fn with(self, var: Var) -> VarSet
        ensures { result.bits ≡ bit_or self.bits (2 ^ order var) }
    {
        VarSet {
            bits: self.bits | (1 << var.order()),
        }
    }

    /// Whether the set has this variable.
    pub fn has(self, var: Var) -> bool
        ensures { IsTrue result ↔ IsBitSet self.bits (order var) }
    {
        self.bits & (1 << var.order()) != 0
    }
}
