// The kind `wave`: a line is a waveform's kind and a phase, four bytes each, and a number of heights in two bytes. The answer is what
// drawing answers, and the heights afterwards, two bytes each in two's complement; 0707 stood in each. tools/wave_cases.py makes the cases.
use run_stored::answers::Checked;
use run_stored::cases::Case;
use std::alloc::Global;
use std::io;
use std::io::Write;

// Some heights more than are drawn. More than these have no answer.
const ROOM: usize = 512;

pub fn answer(alloc: Global, to: &mut impl Write, case: &Case<'_>) -> io::Result<()> {
    let kind = case
        .field(0)
        .first_chunk()
        .map_or(0, |bytes| u32::from_be_bytes(*bytes));
    let phase = case
        .field(1)
        .first_chunk()
        .map_or(0, |bytes| u32::from_be_bytes(*bytes));
    let wanted = case
        .field(2)
        .first_chunk()
        .map_or(0, |bytes| u16::from_be_bytes(*bytes));
    let wanted = usize::from(wanted);
    if wanted > ROOM {
        return writeln!(to, "no case");
    }
    let mut heights = vec![in alloc; 0x0707i16; wanted]?;
    let answer = Checked(wave::wave(kind, phase, &mut heights));
    let mut bytes = vec![in alloc; 0; 2 * wanted]?;
    let (pairs, _) = bytes.as_chunks_mut::<2>();
    for (pair, height) in pairs.iter_mut().zip(&heights) {
        *pair = height.to_be_bytes();
    }
    let heights = hex::encode_upper(alloc, bytes)?;
    writeln!(to, "{answer}\t{heights}")
}
