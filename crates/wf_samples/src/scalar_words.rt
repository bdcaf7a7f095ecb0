//! Scalars of calls and replies as words.

ghost use Rattle.std.specs.Prelude.{◌≡◌};
ghost use Rattle.ob_interface.specs.View.{call_of};
ghost use Rattle.wf_samples.specs.Words.{argument_of, scalar_in};

use ob_interface::call::Call;
use ob_interface::scalar::Scalar;

/// The first argument of a call; 0 where it has none, or no INTEGER.
pub fn argument(call: &Call) -> i64
    ensures { result ≡ argument_of (call_of call.now).arguments }
{
    match call.args.as_slice() {
        [Scalar::Int(value), ..] => i64::from(*value),
        _ => 0,
    }
}

/// The word as an INTEGER; 0 where it is none.
pub fn scalar(word: i64) -> Scalar
    ensures { result ≡ scalar_in word }
{
    if word >= -2147483648 && word <= 2147483647 {
        Scalar::Int(word as i32)
    } else {
        Scalar::Int(0)
    }
}
