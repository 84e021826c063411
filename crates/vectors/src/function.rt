// The functions whose calls are recorded, by their numbers.
ghost use Rattle.std.specs.Prelude.{◌≡◌};
ghost use Rattle.std.specs.Result.{is_ok};
ghost use Rattle.vectors.specs.Records.{known};

use Call::{JobFile, Outline};
use Entry::{
    ByDistance, ByDistanceBalanced, CollectSplines, CollectSplinesBalanced, Directions, InkTrap,
    InkTrapBalanced, Simple, SimpleBalanced,
};

// What takes an outline.
#[derive(Clone, Copy)]
pub(crate) enum Entry {
    Simple,
    InkTrap,
    CollectSplines,
    ByDistance,
    Directions,
    SimpleBalanced,
    InkTrapBalanced,
    CollectSplinesBalanced,
    ByDistanceBalanced,
}

// What fills result buffers.
#[derive(Clone, Copy)]
pub(crate) enum Call {
    Outline(Entry),
    JobFile,
}

#[derive(Clone, Copy)]
pub(crate) enum Function {
    // By its number in the recorded file, which has one arm in leaves.rt or edges.rt.
    Leaf(u64),
    Edge(u64),
    Offers,
    Job,
    ReadJob,
    Color(Call),
}

// No function has the number.
#[derive(Drop)]
pub(crate) struct UnknownFunction;

impl TryFrom<u64> for Function {
    type Error = UnknownFunction;

    ghost try_from_gives = { λ number result. is_ok result ≡ known number };

    #[tactic(auto, unfolding(crate::specs::Records::known))]
    fn try_from(number: u64) -> Result<Function, UnknownFunction> {
        match number {
            0..=28 => Ok(Function::Leaf(number)),
            32..=46 => Ok(Function::Edge(number)),
            64 => Ok(Function::Offers),
            65 => Ok(Function::Color(Outline(Simple))),
            66 => Ok(Function::Color(Outline(InkTrap))),
            67 => Ok(Function::Color(Outline(CollectSplines))),
            68 => Ok(Function::Color(Outline(ByDistance))),
            69 => Ok(Function::Job),
            70 => Ok(Function::ReadJob),
            71 => Ok(Function::Color(JobFile)),
            72 => Ok(Function::Color(Outline(Directions))),
            73 => Ok(Function::Color(Outline(SimpleBalanced))),
            74 => Ok(Function::Color(Outline(InkTrapBalanced))),
            75 => Ok(Function::Color(Outline(CollectSplinesBalanced))),
            76 => Ok(Function::Color(Outline(ByDistanceBalanced))),
            _ => Err(UnknownFunction),
        }
    }
}
