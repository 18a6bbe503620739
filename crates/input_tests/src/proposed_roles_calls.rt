//! What is proposed for a file by its name: the place of a copper layer, and names with a space. Other names, and what a drill file says of its
//! holes, are in the data of `worked_examples`.

use grid_units::Profile;
use manifest::*;
use std::alloc::Global;

/// A Gerber file without a file function.
const LAYER: &str = "%FSLAX46Y46*%\n%MOMM*%\n%ADD10C,0.6*%\nD10*\nX0Y0D03*\nM02*\n";

/// What is proposed for a Gerber file of this name in the strict profile.
fn role_of(alloc: Global, name: &str) -> Option<ProposedRole> {
    let content = FileContent::Bytes(LAYER.as_bytes());
    match propose(alloc, Profile::Strict, &[InputFile { name, content }]) {
        Ok(list) => Some(list.as_slice().first()?.role),
        Err(_) => None,
    }
}

/// Names of layers without copper in which there is a space, as Altium and Proteus write them.
const OTHER_LAYERS: [&str; 3] = [
    "Top Overlay.gbr",
    "Overlay Top.gbr",
    "board - CADCAM Solder Resist Top.TXT",
];

/// Names of copper layers, and the place of each.
const COPPER_LAYERS: [(&str, StackPosition); 32] = [
    ("board-F_Cu.gbr", StackPosition::Top),
    ("board-B_Cu.gbr", StackPosition::Bottom),
    ("board-In1_Cu.gbr", StackPosition::Inner(1)),
    ("copper_top.gbr", StackPosition::Top),
    ("copper_bottom.gbr", StackPosition::Bottom),
    ("copper_inner2.gbr", StackPosition::Inner(2)),
    ("top_copper.gbr", StackPosition::Top),
    ("inner1.gbr", StackPosition::Inner(1)),
    ("board-L1.gbr", StackPosition::Inner(1)),
    ("board-top.gbr", StackPosition::Top),
    ("board-back.gbr", StackPosition::Bottom),
    ("TopLayer.gbr", StackPosition::Top),
    ("Gerber_BottomLayer.gbr", StackPosition::Bottom),
    ("Gerber_InnerLayer1.gbr", StackPosition::Inner(1)),
    ("toplayer.gbr", StackPosition::Top),
    ("EtchLayerTop.gdo", StackPosition::Top),
    ("PCB_Copper_Signal_Bot.gbr", StackPosition::Bottom),
    ("Top Layer.gbr", StackPosition::Top),
    ("board - CADCAM Bottom Copper.TXT", StackPosition::Bottom),
    ("board_copperTop.gtl", StackPosition::Top),
    ("board_copperBottom.gbr", StackPosition::Bottom),
    ("hellboard.group2.gbr", StackPosition::Inner(2)),
    ("board.GTL", StackPosition::Top),
    ("Mechanical_Keyboard.GTL", StackPosition::Top),
    ("board.GBL", StackPosition::Bottom),
    ("board.g2", StackPosition::Inner(2)),
    ("board.cmp", StackPosition::Top),
    ("board.sol", StackPosition::Bottom),
    ("board.TOP", StackPosition::Top),
    ("board.bot", StackPosition::Bottom),
    ("TOP.art", StackPosition::Top),
    ("resistor-board_front.gbr", StackPosition::Top),
];

#[test]
fn layers_without_copper_are_left_out(rt: HostRuntime) {
    for name in &OTHER_LAYERS {
        let role = role_of(rt.alloc(), *name);
        assert!(rt; role == Some(ProposedRole::LeftOut), "{name}");
    }
}

#[test]
fn copper_layers_are_known_by_their_names(rt: HostRuntime) {
    for &(name, place) in &COPPER_LAYERS {
        let role = role_of(rt.alloc(), name);
        assert!(rt; role == Some(ProposedRole::Copper(place)), "{name}");
    }
}
