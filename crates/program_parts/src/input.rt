// Standard input, as far as a program takes it.
ghost use Rattle.std.specs.Prelude.{◌≡◌, ◌<◌, ◌≤◌, IfOk, IfSome, MatchOption, length, vec_len};

use std::alloc::Global;
use std::io;
use std::io::Read;

/// All bytes of a source, if they are not too many.
pub fn read_input<R: Read + Drop>(heap: Global, source: R, most: u32) -> io::Result<Option<Vec<u8>>>
    ensures few { IfOk result (λ taken. IfSome taken (λ bytes. vec_len bytes ≤ most)) }
    ensures all { IfOk result (λ taken. IfSome (R.remaining source) (λ all. MatchOption taken (most < length all) (λ bytes. bytes.items ≡ all))) }
{
    let mut bytes = Vec::new(heap);
    let mut source = source.take(u64::from(most) + 1);
    source.read_to_end(&mut bytes)?;
    if bytes.len() > most as usize {
        return Ok(None);
    }
    Ok(Some(bytes))
}

#[cfg(test)]
mod tests {
    use super::*;

    #[test]
    fn takes_up_to_the_most(rt: HostRuntime) -> io::Result<()> {
        let source: &[u8] = b"scenario";
        let taken = read_input(rt.alloc(), source, 8)?;
        assert!(rt; taken.is_some_and(|bytes| bytes.as_slice() == b"scenario".as_slice()));
        let source: &[u8] = b"scenario";
        assert!(rt; read_input(rt.alloc(), source, 7)?.is_none());
        Ok(())
    }
}
