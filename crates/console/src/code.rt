use instructions::instruction::Instruction;
use listing::line::read_line;
use std::alloc::{AllocError, Global};

/// A code list, or the number of its first malformed line, counted from 1.
/// Blank lines and lines that begin with `#` are passed over. Each instruction has its own index.
// Want of memory is the outer error: one enum of both would take a conversion and a match more, and `?` serves here.
pub fn read_code(heap: Global, text: &str) -> Result<Result<Vec<Instruction>, usize>, AllocError> {
    let mut code = Vec::new(heap);
    for (k, line) in text.lines().enumerate() {
        if line.is_empty() || line.starts_with('#') {
            continue;
        }
        match read_line(line.as_bytes()) {
            Some((index, instruction)) if index as usize == code.len() => code.push(instruction)?,
            _ => return Ok(Err(k.wrapping_add(1))),
        }
    }
    Ok(Ok(code))
}
