ghost use Rattle.std.specs.Prelude.{◌≡◌, ◌+◌, ◌^◌, ◌<◌};
ghost use Rattle.chips.specs.Image.{HeaderOf, four_bytes, header_word, good_header};

use flash::geometry::Geometry;

// The bytes of a block's header, which lies before its pages.
pub(crate) const HEADER_LENGTH: usize = 4;

// What the header of a block says: 32 bits, most significant byte first.
// It is always written out whole: a struct with ghost fields derives no `Default` and is not updated by `..`.
#[derive(Clone, Copy)]
pub struct Header {
    // the lowest page that may still be programmed, in 7 bits
    pub(crate) floor: usize,
    // how often the block was erased, in 20 bits
    pub(crate) erases: u32,
    // the five bits that are zero in a good header
    pub(crate) spare: u32,
    ghost floor_fits: { floor < 2 ^ 7 },
    ghost erases_fits: { erases < 2 ^ 20 },
    ghost spare_fits: { spare < 2 ^ 5 },
}

impl Header {
    // Whether a block of these measures may have the header.
    pub(crate) fn is_good(self, geometry: Geometry) -> bool
        ensures { result ≡ good_header geometry self.floor self.erases self.spare }
    {
        self.floor <= geometry.pages && self.erases <= geometry.endurance && self.spare == 0
    }
}

// A header as it is read from memory.
impl From<[u8; HEADER_LENGTH]> for Header {
    ghost from_gives = { λ bytes header. HeaderOf bytes header.floor header.erases header.spare };

    fn from(bytes: [u8; HEADER_LENGTH]) -> Header {
        let word = u32::from_be_bytes(bytes);
        Header {
            floor: (word >> 25) as usize,
            erases: (word >> 5) & 0xF_FFFF,
            spare: word & 0x1F,
        }
    }
}

// A header as it is written into memory.
impl From<Header> for [u8; HEADER_LENGTH] {
    ghost from_gives = { λ header bytes. bytes ≡ four_bytes (header_word header.floor header.erases + header.spare) };

    fn from(header: Header) -> [u8; HEADER_LENGTH] {
        ((header.floor as u32) << 25 | header.erases << 5 | header.spare).to_be_bytes()
    }
}
