// What fills a lent buffer before a call, so that a change past the result, or after a refusal, shows: by the size of an
// entry. It rests on nothing.
pub const BYTE: u8 = 0xA5;

pub const MASK: u32 = 0x89AB_CDEF;

pub const WORD: u64 = 0x0123_4567_89AB_CDEF;
