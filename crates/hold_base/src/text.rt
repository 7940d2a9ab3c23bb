ghost use Rattle.std.specs.Prelude.{◌≡◌, ◌++◌, OnOk, OnErr};
ghost use Rattle.std.specs.Fmt.{signed_decimal};

use crate::stop::Memory;
use itoa::Buffer;

/// Appends the decimal text of a number: a minus sign for one below 0, and no leading zeros.
pub fn put_number(out: &mut Vec<u8>, n: i64) -> Result<(), Memory>
    ensures ok { OnOk result (out.new.items ≡ out.old.items ++ signed_decimal n) }
    ensures err { OnErr result (out.new.items ≡ out.old.items) }
{
    let mut buffer = Buffer::new();
    out.extend_from_slice(buffer.format(n).as_bytes())?;
    Ok(())
}

#[cfg(test)]
mod tests {
    use super::*;
    use std::test::Fail;

    #[test]
    fn numbers_are_appended(rt: HostRuntime) -> Result<(), Fail> {
        let mut out = Vec::new(rt.alloc());
        put_number(&mut out, i64::MIN)?;
        put_number(&mut out, 0)?;
        put_number(&mut out, 42)?;
        assert_eq!(rt; out.as_slice(), b"-9223372036854775808042".as_slice());
        Ok(())
    }
}
