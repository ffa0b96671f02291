//! Further properties of a hunt.

ghost use Rattle.std.specs.Prelude.{IfErr, IfOk, map};
ghost use Rattle.pf_property.specs.Views.{property_of};
ghost use Rattle.pf_verdicts.specs.Further.{AreProperties, AreRefused};

use pf_check::ReadModule;
use pf_errors::{Code, NoMemory, OrNoMemory};
use pf_property::Property;
use std::alloc::Global;

/// The properties that these texts are of runs of a module, in their order; or that one of them is none.
pub fn further_properties(
    alloc: Global,
    module: &ReadModule,
    texts: &[&str],
) -> Result<Vec<Property>, OrNoMemory<Code>>
    ensures read { IfOk result (λ v. AreProperties «module».now.code.atoms (map (λ s. s.now) texts.now)
        (map property_of v.items)) }
    ensures fault { IfErr result (AreRefused «module».now.code.atoms (map (λ s. s.now) texts.now)) }
{
    let mut properties = Vec::new(alloc);
    for text in texts {
        let property = Property::read(alloc, text.as_bytes(), module.module().atoms())?;
        properties.push(property)?;
    }
    Ok(properties)
}
