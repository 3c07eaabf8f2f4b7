// The calls, on buffers that are long enough for every sample.
use fitter::Answer;

// The sample sheet, read.
pub fn sheet() -> [u8; 40] {
    let mut table = [0u8; 40];
    let _ = fitter::read(
        b"states edges nodes props\n3 4 5 1\ninitial label\n1 0\n0 1\n0 1\n\
          from to price\n0 1 1\n1 0 2\n1 2 3\n2 2 4\nkind a b\n0 0 0\n2 0 0\n9 0 1\n3 2 0\n8 0 3\n",
        &mut table,
    );
    table
}

pub fn repair_in(table: &[u8], cap: u64, bytes: &mut [u8]) -> Answer {
    let mut list = [0u8; 128];
    let mut words = [0u32; 100];
    fitter::repair(table, cap, &mut list, bytes, &mut words)
}

pub fn repair(table: &[u8], cap: u64) -> Answer {
    let mut bytes = [0u8; 100];
    repair_in(table, cap, &mut bytes)
}
