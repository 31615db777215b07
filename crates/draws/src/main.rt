// Replays fixed vectors of the draw: of each state the two outputs, their uniforms, the logarithm of the first, the cosine of the second,
// the Gaussian, and the state that it leaves, in hexadecimal; all of edition 1, and then all of edition 2. The file stdout holds what the
// rule of docs/DRAW.md gives for them.
#![tactic(auto)]

use draw::SplitMix64;
use std::io;
use std::io::Write;

const STATES: [u64; 64] = [
    0x0000_0000_0000_0000,
    0x0000_0000_0000_0001,
    0x0000_0000_0000_0002,
    0x0000_0000_0000_0003,
    0xFFFF_FFFF_FFFF_FFFF,
    0xFFFF_FFFF_FFFF_FFFE,
    0x8000_0000_0000_0000,
    0x7FFF_FFFF_FFFF_FFFF,
    0x9E37_79B9_7F4A_7C15,
    0x1234_5678_9ABC_DEF0,
    0x61C8_8646_80B5_83EB,
    0x2074_00B0_B9F8_7A70,
    0xD09C_044B_3731_8EDC,
    0x137D_2979_7558_145D,
    0xB1E1_B8F8_6E1B_4E67,
    0x9641_C808_7F51_6E88,
    0xAE47_2FCE_172D_9610,
    0x7D6C_2E90_76B4_5A87,
    0x401A_54DA_5EA0_0C6A,
    0x2FED_F1EF_CE1D_5545,
    0x3F0F_42C6_8712_B235,
    0x1BDD_74C7_59B0_BDB7,
    0x579F_3978_A1BF_05C9,
    0x4B84_8A5D_E914_8C9F,
    0xF56E_309E_96A0_4737,
    0xEEE9_0DAF_1851_5225,
    0xDCDF_56C2_458B_1810,
    0xA9C9_A4DB_B5E3_7269,
    0x93E6_DDC1_1BA1_22CB,
    0x8A15_CB0D_5F32_0EB9,
    0xD5CE_CB7E_06F9_F68C,
    0x87ED_C5E0_254C_0105,
    0x3E8B_5578_B3FA_AE22,
    0x6F18_0EFA_872C_E5A8,
    0x122D_28C0_502A_8CD8,
    0x119B_1E3E_7BC7_DE56,
    0x254F_8A42_7452_5FFF,
    0x93DF_B922_AC5F_A985,
    0xFE8C_27D5_FAB7_26BC,
    0x932B_113C_FBD6_B596,
    0xFC8D_EF1A_EC28_2625,
    0x19F4_082C_0EAA_61AD,
    0xED96_46C6_B3A0_028D,
    0x1EDE_F259_5DEB_32E7,
    0x3364_F1FE_66AD_FEE9,
    0xB60C_D02F_6BD8_4DAF,
    0x1A14_CEDE_7FA6_A028,
    0x2570_8CFE_6BD5_DD40,
    0xFF5D_7885_542A_6D29,
    0xEA34_88F6_01E8_87D9,
    0x7CCE_70DE_6BD9_BAD5,
    0x234C_9583_AB7A_8429,
    0x3218_CAB9_44BE_56C0,
    0xFCE8_5FE3_F964_3A13,
    0xACF2_0AE4_73FA_BCB4,
    0x0270_C85D_052F_FBBD,
    0x0620_F177_B049_03FF,
    0x2805_0510_FCE2_B8D2,
    0x46F1_08BE_540C_CED7,
    0xE988_42C6_DAC1_9265,
    0x814A_E755_9D00_FE78,
    0xF9E3_086A_823E_4239,
    0xD7E8_AB24_F174_2102,
    0xDF4F_B09E_ACA3_13F5,
];

// A number, and what ends it.
fn print<W: Write>(out: &mut W, n: u64, end: char) -> io::Result<()> {
    write!(out, "{n:016x}{end}")
}

// The bits of a double, of which no draw is a NaN; a NaN would print as 0.
fn bits(x: f64) -> u64 {
    if x == x { f64::to_bits(x) } else { 0 }
}

// One line.
fn replay<W: Write>(out: &mut W, state: u64, edition: u32) -> io::Result<()> {
    let mut rng = SplitMix64::new(state, edition);
    let first = rng.next_u64();
    let second = rng.next_u64();
    print_words(out, state, first, second)?;
    print_uniforms(out, edition, first, second)?;
    print_draw(out, state, edition)
}

fn print_words<W: Write>(out: &mut W, state: u64, first: u64, second: u64) -> io::Result<()> {
    print(out, state, '\t')?;
    print(out, first, '\t')?;
    print(out, second, '\t')
}

fn print_uniforms<W: Write>(out: &mut W, edition: u32, first: u64, second: u64) -> io::Result<()> {
    print(out, bits(draw::uniform_of(edition, first)), '\t')?;
    print(out, bits(draw::uniform_of(edition, second)), '\t')?;
    print(out, bits(draw::ln_of(edition, first)), '\t')?;
    print(out, bits(draw::cos_of(edition, second)), '\t')
}

fn print_draw<W: Write>(out: &mut W, state: u64, edition: u32) -> io::Result<()> {
    let mut rng = SplitMix64::new(state, edition);
    let gaussian = rng.gaussian();
    print(out, bits(gaussian), '\t')?;
    print(out, rng.state, '\n')
}

// All lines of an edition.
fn replay_all<W: Write>(out: &mut W, edition: u32) -> io::Result<()> {
    for state in &STATES {
        replay(out, *state, edition)?;
    }
    Ok(())
}

fn main(rt: HostRuntime) -> io::Result<()> {
    let mut out = rt.stdout();
    replay_all(&mut out, 1)?;
    replay_all(&mut out, 2)
}
