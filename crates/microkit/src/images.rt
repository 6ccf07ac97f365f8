//! Program images: the check that each domain has one.
ghost use Rattle.std.specs.Prelude.{◌+◌, ◌<◌, ◌≡◌};
ghost use Rattle.{xml.specs.View.{node_of, nodes_of}, microkit.specs.Images.{has_image, images_at, is_image, lacks_image}};

use crate::flaws::{ElementFault, Flaw, Spot};
use xml::Element;

/// Checks that each domain has a program image.
///
/// # Errors
///
/// [`Flaw::NoImage`] for the first domain that has none.
#[tactic(auto, using(crate::proofs::ImageSteps::all_have, crate::proofs::ImageSteps::one_has, crate::proofs::ImageSteps::one_lacks))]
pub(crate) fn check_images(elements: &[Element<'_>]) -> Result<(), ElementFault>
    ensures { result ≡ images_at 0 (nodes_of elements.now) }
{
    for (number, element) in elements.iter().enumerate() {
        if lacks_image(element, &elements[number + 1..]) {
            return Err(ElementFault {
                flaw: Flaw::NoImage,
                spot: Spot {
                    element: number,
                    line: element.line,
                },
            });
        }
    }
    Ok(())
}

// Whether an element is a domain without a program image, if these elements follow it.
fn lacks_image(element: &Element<'_>, following: &[Element<'_>]) -> bool
    ensures { result ≡ lacks_image (node_of element.now) (nodes_of following.now) }
{
    element.name == b"protection_domain".as_slice() && !has_image(element.level, following)
}

// Whether a program image stands right within an element of this level, which these elements follow.
#[tactic(auto, using(crate::proofs::ImageSteps::image_first, crate::proofs::ImageSteps::image_later, crate::proofs::ImageSteps::level_ended, crate::proofs::ImageSteps::no_image))]
fn has_image(level: usize, following: &[Element<'_>]) -> bool
    ensures { result ≡ has_image level (nodes_of following.now) }
{
    for element in following {
        if element.level <= level {
            return false;
        }
        if is_image(level, element) {
            return true;
        }
    }
    false
}

// Whether an element that stands within one of this level is its program image.
fn is_image(level: usize, element: &Element<'_>) -> bool
    requires { level < element.now.level }
    ensures { result ≡ is_image (level + 1) (node_of element.now) }
{
    element.level - 1 == level && element.name == b"program_image".as_slice()
}
