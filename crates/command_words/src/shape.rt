//! The cluster of two words.
ghost use Rattle.std.specs.Prelude.{◌≡◌};
ghost use Rattle.craft_base.specs.Shapes.{shape_from};
ghost use Rattle.command_words.specs.Words as commands;
ghost use Rattle.world_model.specs.Numbers.{number_of};

use craft_base::Shape;
use line_input::number;

/// The cluster of two words, where they are numbers that make one.
pub(crate) fn shape_of_words(faults: &str, need: &str) -> Option<Shape>
    ensures { result ≡ commands.shape_of (number_of faults.now) (number_of need.now) }
{
    let faults = number(faults.as_bytes())?;
    let need = number(need.as_bytes())?;
    shape_of(faults, need)
}

/// The cluster of two numbers, where they make one.
fn shape_of(faults: u64, need: u64) -> Option<Shape>
    ensures { result ≡ commands.shape_if_ok (shape_from faults need) }
{
    let faults = u8::try_from(faults).ok()?;
    let need = u8::try_from(need).ok()?;
    Shape::new(faults, need).ok()
}
