// Each type that a script has, with the ends that it is read between.
ghost use Rattle.std.specs.Prelude.{pos};
ghost use Rattle.number.specs.Numbers.{Number, whole};

use crate::{channel, read, sample, size};

fn count(word: &str) -> Option<u16>
    ensures { Number (pos 0) (pos 65535) word.now (whole result) }
{
    read(word)
}

#[test]
fn ends_of_types(rt: HostRuntime) {
    assert_eq!(rt; sample("-32768"), Some(-32768));
    assert_eq!(rt; sample("-32769"), None);
    assert_eq!(rt; channel("+255"), Some(255));
    assert_eq!(rt; channel("-0"), Some(0));
    assert_eq!(rt; channel("256"), None);
    assert_eq!(rt; count("65535"), Some(65_535));
    assert_eq!(rt; count("-1"), None);
    assert_eq!(rt; size("4294967295"), Some(4_294_967_295));
    assert_eq!(rt; size("12x"), None);
}
