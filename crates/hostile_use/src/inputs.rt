//! The inputs of the calls that are made while allocations are refused.

use manifest::Role;

pub(crate) const LAYER: &str = "%FSLAX46Y46*%\n%MOMM*%\n%ADD10C,0.65*%\nD10*\nX0Y0D03*\nM02*\n";

const MOVED: &str = "%FSLAX46Y46*%\n%MOMM*%\n%ADD10C,0.65*%\nD10*\nX1Y0D03*\nM02*\n";

const TWO_FLASHES: &str =
    "%FSLAX46Y46*%\n%MOMM*%\n%ADD10C,0.65*%\nD10*\nX0Y0D03*\nX390000Y520000D03*\nM02*\n";

const MACRO: &str = "%TF.FileFunction,Copper,L1,Top*%
%FSLAX46Y46*%
%MOMM*%
G04 made by an exporter*
%AMRoundRect*
0 Rectangle with rounded corners*
21,1,$1,$2,0,0,0*%
%TA.AperFunction,SMDPad,CuDef*%
%ADD10RoundRect,1.0X1.0*%
%TD*%
D10*
X0Y0D03*
M02*
";

const SOLDERMASK: &str = "%TF.FileFunction,Soldermask,L1,Top*%
%FSLAX46Y46*%
%MOMM*%
G04 made by an exporter*
%AMRoundRect*
0 Rectangle with rounded corners*
21,1,$1,$2,0,0,0*%
%TA.AperFunction,SMDPad,CuDef*%
%ADD10RoundRect,1.0X1.0*%
%TD*%
D10*
X0Y0D03*
M02*
";

const PLOTTED: &str = "%FSLAX46Y46*%
%MOMM*%
%ADD10C,0.65*%
D10*
X1000000Y2000000D02*
D03*
X3000000D03*
G01X1000000D01*
X0*
M02*
";

const BARE: &str = "%FSLAX46Y46*%\n%MOMM*%\n%ADD10C,0.65*%\nD10*\nX0Y0D03*\nX6*\nM02*\n";

const ONE_LINE: &str =
    "G04 old*G70*%FSLAX24Y24*%%OFA0B0*%%ADD010C,.0500*%G54D10*G1X+01000Y0D2*X2000D1*Y-500*D3*M2*";

const UNKNOWN_APERTURE: &str = "%FSLAX46Y46*%\n%MOMM*%\n%ADD10C,0.65*%\nD11*\nX0Y0D03*\nM02*\n";

const NO_OPERATION: &str = "%FSLAX46Y46*%\n%MOMM*%\nX1D09*\nD10*\nX0Y0D03*\nM02*\n";

const LONG_PAD: &str = "%FSLAX46Y46*%\n%MOMM*%\n%ADD10O,2.75X0.75*%\nD10*\nX1000000Y0D03*\nM02*\n";

const SHORT_PAD: &str = "%FSLAX46Y46*%\n%MOMM*%\n%ADD10O,2.74X0.75*%\nD10*\nX1000000Y0D03*\nM02*\n";

const TWO_PADS: &str =
    "%FSLAX46Y46*%\n%MOMM*%\n%ADD10C,0.75*%\nD10*\nX0Y0D03*\nX2000000Y0D03*\nM02*\n";

const COPIES: &str =
    "%FSLAX46Y46*%\n%MOMM*%\n%ADD10C,0.65*%\nD10*\n%SRX20Y20I1J1*%\nX0Y0D03*\n%SR*%\nM02*\n";

pub(crate) const LAYERS: [&str; 10] = [
    LAYER,
    TWO_FLASHES,
    MACRO,
    SOLDERMASK,
    PLOTTED,
    BARE,
    ONE_LINE,
    UNKNOWN_APERTURE,
    NO_OPERATION,
    COPIES,
];

const DRILL: &str = "M48\nMETRIC\nT1C0.4\n%\nT1\nX0.0Y0.0\nM30\n";

const TWO_HITS: &str = "M48\nMETRIC\nT1C0.4\n%\nT1\nX0.0Y0.0\nX0.39Y0.52\nM30\n";

const HIT_TWICE: &str = "M48\nMETRIC\nT1C0.4\n%\nT1\nX0.0Y0.0\nX0.0Y0.0\nM30\n";

const SLOTS: &str = "M48
METRIC
T1C0.5
%
T1
X0.0Y0.0G85X2.0Y0.0
X0.0Y5.0G85X2.0Y6.0
X9.0Y9.0G85X9.0Y9.0
M30
";

const ROUTED: &str = "M48
METRIC
T1C0.5
%
T1
X0.0Y0.0G85X2.0Y0.0
X0.0Y5.0G85X2.0Y6.0
X9.0Y9.0G85X9.0Y9.0
G00X1.0Y1.0
M30
";

const INCHES: &str =
    "%\nM48\n;note\nINCH,LZ\nT01F00S00C.0350\nFMAT,2\nM95\nG90\nG05\nM72\nT01\nX01Y-005\nX02G85Y01\nT00\nM30";

const SLOT_AND_HOLE: &str = "M48\nMETRIC\nT1C0.5\n%\nT1\nX0.0Y0.0G85X2.0Y0.0\nX1.0Y0.75\nM30\n";

const SLOT_NEAR_HOLE: &str = "M48\nMETRIC\nT1C0.5\n%\nT1\nX0.0Y0.0G85X2.0Y0.0\nX1.0Y0.749\nM30\n";

const OBLIQUE_NEAR_HOLE: &str = "M48\nMETRIC\nT1C0.5\n%\nT1\nX0.0Y5.0G85X2.0Y6.0\nX0.0Y6.0\nM30\n";

const SLOT: &str = "M48\nMETRIC\nT1C0.5\n%\nT1\nX0.0Y0.0G85X2.0Y0.0\nM30\n";

const OBLIQUE: &str = "M48\nMETRIC\nT1C0.5\n%\nT1\nX0.0Y5.0G85X2.0Y6.0\nM30\n";

pub(crate) const DRILLS: [&str; 6] = [DRILL, TWO_HITS, HIT_TWICE, SLOTS, ROUTED, INCHES];

pub(crate) const MANIFESTS: [&str; 12] = [
    "role,name,file\ncopper,top,top.gbr\nplated,pth,pth.drl\n",
    "role,name,file\ncopper,top,top.gbr\nunplated,npth,n.drl\n",
    "",
    "role,file,name\n",
    "role,name,file\nvia,a,b\n",
    "role,name,file\ncopper,,b\n",
    "role,name,file\ncopper,a,b\ncopper,a,b\n",
    "role,name,file\ncopper,a,b\n",
    "role,name,file,first,last\ncopper,top,top.gbr,,\ncopper,bot,bot.gbr,,\nplated,pth,pth.drl,1,1\n",
    "role,name,file,first,last\ncopper,top,top.gbr,,\ncopper,bot,bot.gbr,,\nplated,pth,pth.drl,1,2\n",
    "role,name,file,first,last\ncopper,top,top.gbr,,\ncopper,bot,bot.gbr,,\nplated,pth,pth.drl,,\n",
    "role,name,file,first,last\ncopper,top,top.gbr,,\ncopper,bot,bot.gbr,,\nplated,pth,pth.drl,1,3\n",
];

/// The copper files of packages.
#[derive(Clone, Copy)]
pub(crate) enum Copper {
    Layer,
    Moved,
    TwoFlashes,
    Macro,
    Soldermask,
    LongPad,
    ShortPad,
    TwoPads,
}

impl Copper {
    pub(crate) fn text(self) -> &'static str {
        match self {
            Copper::Layer => LAYER,
            Copper::Moved => MOVED,
            Copper::TwoFlashes => TWO_FLASHES,
            Copper::Macro => MACRO,
            Copper::Soldermask => SOLDERMASK,
            Copper::LongPad => LONG_PAD,
            Copper::ShortPad => SHORT_PAD,
            Copper::TwoPads => TWO_PADS,
        }
    }
}

/// The drill files of packages.
#[derive(Clone, Copy)]
pub(crate) enum Holes {
    One,
    TwoHits,
    HitTwice,
    Slot,
    Oblique,
    SlotAndHole,
    SlotNearHole,
    ObliqueNearHole,
}

impl Holes {
    pub(crate) fn text(self) -> &'static str {
        match self {
            Holes::One => DRILL,
            Holes::TwoHits => TWO_HITS,
            Holes::HitTwice => HIT_TWICE,
            Holes::Slot => SLOT,
            Holes::Oblique => OBLIQUE,
            Holes::SlotAndHole => SLOT_AND_HOLE,
            Holes::SlotNearHole => SLOT_NEAR_HOLE,
            Holes::ObliqueNearHole => OBLIQUE_NEAR_HOLE,
        }
    }
}

/// A package: one copper file or two, and a drill file. The files have names, since a table of their texts is dear to prove.
#[derive(Clone, Copy)]
pub(crate) struct Board {
    pub(crate) top: Copper,
    pub(crate) bottom: Option<Copper>,
    pub(crate) role: Role,
    pub(crate) drill: Holes,
    pub(crate) span: Option<(u32, u32)>,
}

const BOARD: Board = Board {
    top: Copper::Layer,
    bottom: None,
    role: Role::Plated,
    drill: Holes::One,
    span: None,
};

const THREE: Board = Board {
    bottom: Some(Copper::Moved),
    ..BOARD
};

const UNPLATED: Board = Board {
    role: Role::Unplated,
    ..BOARD
};

const SLOTTED: Board = Board {
    top: Copper::LongPad,
    drill: Holes::Slot,
    ..BOARD
};

pub(crate) const BOARDS: [Board; 17] = [
    BOARD,
    Board {
        top: Copper::TwoFlashes,
        drill: Holes::TwoHits,
        ..BOARD
    },
    Board {
        drill: Holes::HitTwice,
        ..BOARD
    },
    Board {
        top: Copper::Macro,
        ..BOARD
    },
    Board {
        top: Copper::Soldermask,
        ..BOARD
    },
    Board {
        drill: Holes::SlotAndHole,
        ..UNPLATED
    },
    Board {
        drill: Holes::SlotNearHole,
        ..UNPLATED
    },
    Board {
        drill: Holes::ObliqueNearHole,
        ..UNPLATED
    },
    Board {
        span: Some((1, 1)),
        ..THREE
    },
    Board {
        span: Some((1, 2)),
        ..THREE
    },
    THREE,
    Board {
        span: Some((1, 2)),
        ..BOARD
    },
    SLOTTED,
    Board {
        top: Copper::ShortPad,
        ..SLOTTED
    },
    Board {
        drill: Holes::Oblique,
        ..SLOTTED
    },
    Board {
        drill: Holes::Oblique,
        role: Role::Unplated,
        ..SLOTTED
    },
    Board {
        top: Copper::TwoPads,
        ..SLOTTED
    },
];

/// A file's name, and its text where it could be read.
pub(crate) type Held = (&'static str, Option<&'static str>);

/// The files of folders.
pub(crate) const FOLDERS: [&[Held]; 2] = [
    &[
        ("top.gbr", Some(LAYER)),
        ("bottom.gbr", Some(MACRO)),
        ("mask.gbr", Some(SOLDERMASK)),
        ("pth.drl", Some(DRILL)),
        ("a-NPTH.drl", Some(SLOTS)),
        ("pth.drl", Some(DRILL)),
        ("notes.txt", Some("1, 2\n")),
    ],
    &[
        ("In1.Cu.gbr", Some(ONE_LINE)),
        ("a \"name\", with a comma.drl", Some(INCHES)),
        ("b", None),
    ],
];

/// The words of command lines.
pub(crate) const LINES: [&[&str]; 7] = [
    &["check", "--ring", "0.125", "--gap", "0.25", "m.csv"],
    &["show", "--kind=layer", "f"],
    &["rewrite", "f", "--kind", "drill"],
    &["check", "--ring", "0.125", "m.csv"],
    &["cut"],
    &["--help"],
    &[],
];
