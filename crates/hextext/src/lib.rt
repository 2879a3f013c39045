// Bytes that a text writes in hexadecimal.
#![tactic(auto)]

ghost use Rattle.std.specs.Prelude.{◌≡◌, ◌*◌, ◌/◌, ◌<◌, ◌∷◌, ◌++◌, ◌⊎◌, ℕ, List, [], length, take, Some, Err, IfOk, IfErr, IfSome};
ghost use Rattle.hex.specs.declared.error.FromHexError.TheVariants.{OutOfMemory};
ghost use Rattle.std.specs.List.{filter};
ghost use Rattle.hex.specs.Hex.{decode_of, hex_digit_value, is_hex_digit};
ghost use Rattle.hextext.specs.Digits.{digit_in, is_digit, is_small_digit, Written};

use hex::FromHexError;
use std::alloc::{AllocError, Global};

// The value of a digit; a letter in capitals is one only where `capitals` says so.
fn digit(b: u8, capitals: bool) -> Option<u8>
    ensures { result ≡ digit_in capitals b }
{
    match b {
        b'0'..=b'9' => Some(b - b'0'),
        b'a'..=b'f' => Some(b - b'a' + 10),
        b'A'..=b'F' if capitals => Some(b - b'A' + 10),
        _ => None,
    }
}

// One digit more: with the one that waits it makes a byte, and without one it waits itself.
fn add(bytes: &mut Vec<u8>, high: Option<u8>, low: u8) -> Result<Option<u8>, AllocError>
    requires first { IfSome high (λ v. v < 16) }
    requires second { low < 16 }
    ensures { (digits : List ℕ) (d : ℕ) → Written digits bytes.old.items high → hex_digit_value d ≡ Some low → IfOk result (λ waits. Written (digits ++ d ∷ []) bytes.new.items waits) }
{
    let Some(high) = high else {
        return Ok(Some(low));
    };
    bytes.push(high * 16 + low)?;
    Ok(None)
}

// One pass, and no copy of the digits: besides the text there are only its bytes in memory.
fn decode(heap: Global, text: &[u8], capitals: bool) -> Result<Vec<u8>, AllocError>
    ensures { IfOk result (λ v. let digits = filter (is_digit capitals) text.now in decode_of (take (length digits / 2 * 2) digits) ≡ Ok v.items) }
{
    let mut bytes = Vec::new(heap);
    let mut high = None;
    for b in text {
        match digit(*b, capitals) {
            Some(low) => high = add(&mut bytes, high, low)?,
            None => {}
        }
    }
    Ok(bytes)
}

// The bytes that pairs of digits write. What stands between digits is passed over, and so is a last digit without a second.
pub fn bytes_of(heap: Global, text: &[u8]) -> Result<Vec<u8>, FromHexError>
    ensures ok { IfOk result (λ v. let digits = filter is_hex_digit text.now in decode_of (take (length digits / 2 * 2) digits) ≡ Ok v.items) }
    ensures err { IfErr result (λ e. e ≡ OutOfMemory) }
{
    Ok(decode(heap, text, true)?)
}

// The same where a letter in capitals is no digit, and is passed over too.
pub fn bytes_of_small(heap: Global, text: &[u8]) -> Result<Vec<u8>, FromHexError>
    ensures ok { IfOk result (λ v. let digits = filter is_small_digit text.now in decode_of (take (length digits / 2 * 2) digits) ≡ Ok v.items) }
    ensures err { IfErr result (λ e. e ≡ OutOfMemory) }
{
    Ok(decode(heap, text, false)?)
}

#[cfg(test)]
mod tests {
    use super::*;
    use std::test::Fail;

    #[test]
    fn pairs_between_blanks(rt: HostRuntime) -> Result<(), Fail> {
        let bytes = bytes_of(rt.alloc(), b"44 5-4 fF 0")?;
        assert!(rt; bytes.as_slice() == [0x44, 0x54, 0xFF].as_slice());
        Ok(())
    }

    #[test]
    fn capitals_passed_over(rt: HostRuntime) -> Result<(), Fail> {
        let bytes = bytes_of_small(rt.alloc(), b"44 5-4 fFf A1b 0")?;
        assert!(rt; bytes.as_slice() == [0x44, 0x54, 0xFF, 0x1B].as_slice());
        Ok(())
    }
}
