//! Checks of the numbers that a module assigns to names.

use crate::bounds::range_at;
use crate::module::Module;
use asn1_syntax::Refusal;

/// Checks that each number that a module assigns to a name is in the range of its type.
pub fn check_ranges<'a>(module: &Module<'a>) -> Result<(), Refusal<'a>> {
    for assigned in module.values.iter() {
        if let Some(constant) = module.constants.find(assigned.name.text)
            && let Some(number) = constant.number()
            && !range_at(module, assigned.of).has(number)
        {
            let expected = "a number in the range of its type";
            return Err(Refusal::of(assigned.value.item, expected));
        }
    }
    Ok(())
}
