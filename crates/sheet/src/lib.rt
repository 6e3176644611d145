// A profile's rows as comma-separated text. What such a text is, what the writer and the reader give, and the laws of
// both stand in specs/ and proofs/; the writer is crate `sheetout`, the reader crate `sheetin`.

#![tactic(auto)]

// "a header record `row,calls,work,span,local,onspan`"; "Spreadsheets gain `ilocal,ionspan`".
pub const NAMES: [u8; 47] = *b"row,calls,work,span,local,onspan,ilocal,ionspan";
