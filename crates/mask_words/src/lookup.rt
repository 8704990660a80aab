// The words that are looked up by a mask: its nonempty subsets, and the masks that contain it. A public call makes them once and lends them down: the
// functions take them beside a form, because they are the same for every form. It rests on the masks (`mask`).

ghost use Rattle.std.specs.Prelude.{map, ◌≡◌};
ghost use Rattle.bits.specs.Range.{upto};
ghost use Rattle.mask_words.specs.Lookup.{mask_count, subset_word, superset_word};

use crate::mask::Mask;

#[derive(Clone, Copy)]
pub struct Lookup {
    subsets: [u64; 64],
    supersets: [u64; 64],
    ghost subsets_right: { subsets ≡ map subset_word (upto mask_count) },
    ghost supersets_right: { supersets ≡ map superset_word (upto mask_count) },
}

impl Lookup {
    pub fn new() -> Lookup {
        Lookup {
            subsets: SUBSETS,
            supersets: SUPERSETS,
        }
    }

    // The nonempty subsets of a mask.
    #[inline]
    pub fn subsets(&self, mask: Mask) -> u64
        ensures { result ≡ subset_word mask.bits }
    {
        self.subsets[usize::from(mask)]
    }

    // The masks that contain a mask.
    #[inline]
    pub fn supersets(&self, mask: Mask) -> u64
        ensures { result ≡ superset_word mask.bits }
    {
        self.supersets[usize::from(mask)]
    }
}

const SUBSETS: [u64; 64] = [
    0x0000_0000_0000_0000,
    0x0000_0000_0000_0002,
    0x0000_0000_0000_0004,
    0x0000_0000_0000_000e,
    0x0000_0000_0000_0010,
    0x0000_0000_0000_0032,
    0x0000_0000_0000_0054,
    0x0000_0000_0000_00fe,
    0x0000_0000_0000_0100,
    0x0000_0000_0000_0302,
    0x0000_0000_0000_0504,
    0x0000_0000_0000_0f0e,
    0x0000_0000_0000_1110,
    0x0000_0000_0000_3332,
    0x0000_0000_0000_5554,
    0x0000_0000_0000_fffe,
    0x0000_0000_0001_0000,
    0x0000_0000_0003_0002,
    0x0000_0000_0005_0004,
    0x0000_0000_000f_000e,
    0x0000_0000_0011_0010,
    0x0000_0000_0033_0032,
    0x0000_0000_0055_0054,
    0x0000_0000_00ff_00fe,
    0x0000_0000_0101_0100,
    0x0000_0000_0303_0302,
    0x0000_0000_0505_0504,
    0x0000_0000_0f0f_0f0e,
    0x0000_0000_1111_1110,
    0x0000_0000_3333_3332,
    0x0000_0000_5555_5554,
    0x0000_0000_ffff_fffe,
    0x0000_0001_0000_0000,
    0x0000_0003_0000_0002,
    0x0000_0005_0000_0004,
    0x0000_000f_0000_000e,
    0x0000_0011_0000_0010,
    0x0000_0033_0000_0032,
    0x0000_0055_0000_0054,
    0x0000_00ff_0000_00fe,
    0x0000_0101_0000_0100,
    0x0000_0303_0000_0302,
    0x0000_0505_0000_0504,
    0x0000_0f0f_0000_0f0e,
    0x0000_1111_0000_1110,
    0x0000_3333_0000_3332,
    0x0000_5555_0000_5554,
    0x0000_ffff_0000_fffe,
    0x0001_0001_0001_0000,
    0x0003_0003_0003_0002,
    0x0005_0005_0005_0004,
    0x000f_000f_000f_000e,
    0x0011_0011_0011_0010,
    0x0033_0033_0033_0032,
    0x0055_0055_0055_0054,
    0x00ff_00ff_00ff_00fe,
    0x0101_0101_0101_0100,
    0x0303_0303_0303_0302,
    0x0505_0505_0505_0504,
    0x0f0f_0f0f_0f0f_0f0e,
    0x1111_1111_1111_1110,
    0x3333_3333_3333_3332,
    0x5555_5555_5555_5554,
    0xffff_ffff_ffff_fffe,
];

const SUPERSETS: [u64; 64] = [
    0xffff_ffff_ffff_ffff,
    0xaaaa_aaaa_aaaa_aaaa,
    0xcccc_cccc_cccc_cccc,
    0x8888_8888_8888_8888,
    0xf0f0_f0f0_f0f0_f0f0,
    0xa0a0_a0a0_a0a0_a0a0,
    0xc0c0_c0c0_c0c0_c0c0,
    0x8080_8080_8080_8080,
    0xff00_ff00_ff00_ff00,
    0xaa00_aa00_aa00_aa00,
    0xcc00_cc00_cc00_cc00,
    0x8800_8800_8800_8800,
    0xf000_f000_f000_f000,
    0xa000_a000_a000_a000,
    0xc000_c000_c000_c000,
    0x8000_8000_8000_8000,
    0xffff_0000_ffff_0000,
    0xaaaa_0000_aaaa_0000,
    0xcccc_0000_cccc_0000,
    0x8888_0000_8888_0000,
    0xf0f0_0000_f0f0_0000,
    0xa0a0_0000_a0a0_0000,
    0xc0c0_0000_c0c0_0000,
    0x8080_0000_8080_0000,
    0xff00_0000_ff00_0000,
    0xaa00_0000_aa00_0000,
    0xcc00_0000_cc00_0000,
    0x8800_0000_8800_0000,
    0xf000_0000_f000_0000,
    0xa000_0000_a000_0000,
    0xc000_0000_c000_0000,
    0x8000_0000_8000_0000,
    0xffff_ffff_0000_0000,
    0xaaaa_aaaa_0000_0000,
    0xcccc_cccc_0000_0000,
    0x8888_8888_0000_0000,
    0xf0f0_f0f0_0000_0000,
    0xa0a0_a0a0_0000_0000,
    0xc0c0_c0c0_0000_0000,
    0x8080_8080_0000_0000,
    0xff00_ff00_0000_0000,
    0xaa00_aa00_0000_0000,
    0xcc00_cc00_0000_0000,
    0x8800_8800_0000_0000,
    0xf000_f000_0000_0000,
    0xa000_a000_0000_0000,
    0xc000_c000_0000_0000,
    0x8000_8000_0000_0000,
    0xffff_0000_0000_0000,
    0xaaaa_0000_0000_0000,
    0xcccc_0000_0000_0000,
    0x8888_0000_0000_0000,
    0xf0f0_0000_0000_0000,
    0xa0a0_0000_0000_0000,
    0xc0c0_0000_0000_0000,
    0x8080_0000_0000_0000,
    0xff00_0000_0000_0000,
    0xaa00_0000_0000_0000,
    0xcc00_0000_0000_0000,
    0x8800_0000_0000_0000,
    0xf000_0000_0000_0000,
    0xa000_0000_0000_0000,
    0xc000_0000_0000_0000,
    0x8000_0000_0000_0000,
];
