//! A call of an image's function by its words.
ghost use Rattle.std.specs.Prelude.{◌≡◌, ◌<◌, ◌≤◌, ℕ, All, IfOk, List, length, map, slice_get, string_bytes, Some};
ghost use Rattle.um_tree.specs.TypeTree.{shape_tree};
ghost use Rattle.um_tree.specs.ProgramTree.{program_tree};
ghost use Rattle.um_tree.specs.Formed.{IsFormed};
ghost use Rattle.um_measures.specs.ClosedUnits.{given};
ghost use Rattle.um_value.specs.ValueGrammar.{IsShapeIn};
ghost use Rattle.um_run.specs.Reading.{AreArgumentsRead};
ghost use Rattle.um_verify.specs.ImageTree.{HeadTree, image_tree, HasForm};
ghost use Rattle.um_verify.specs.Verified.{IsVerified};
ghost use Rattle.um_run.specs.ImageCalls.{IsImageCallTo, IsImageCallOf, image_call_tree, image_call_answer};
ghost use Rattle.um_run.specs.ImageCalls.{image_program};
ghost use Rattle.um_run.specs.ImageCalls.{known_in};
ghost use Rattle.um_run.specs.ImageLaws.{IsShapedCall};

use crate::argument::read_arguments;
use crate::head::head_named;
use crate::known::Known;
use crate::{CallRefusal, ImageCall};
use std::alloc::Global;
use um_image::plain_records;
use um_measures::{Abbreviations, measures_of};
use um_tree::{Functions, Inputs, Names, Program, Shape};
use um_units::NoMemory;
use um_value::known_names;
use um_verify::{Head, Image};

/// The call of the image's function of this name with the arguments that the texts are.
///
/// Each text is read at the shape of its parameter, over the image's records and without base units, so a number's unit
/// is 1 (`um_value::read_value` has the forms and the places). Each is at most 1,048,576 bytes long; the image is
/// verified, and has at most 16,777,216 records.
///
/// # Errors
///
/// In this order; `NoMemory` may come with any words. The order is this project's own.
///
/// - `NoFunction` if no function has the name.
/// - `WrongCount` if it has another number of parameters than there are texts.
/// - `Argument` at the first text that isn't an input of its parameter's shape.
pub fn read_image_call(
    alloc: Global,
    image: &Image,
    name: &str,
    texts: &[String],
) -> Result<ImageCall, CallRefusal>
    requires verified { IsVerified (image_tree image.now) }
    requires few { length (image_tree image.now).records ≤ 16777216 }
    requires short { All (λ (text : List ℕ). length text ≤ 1048576) (map string_bytes texts.now) }
    ensures exact { IsImageCallOf (image_tree image.now) name.now (map string_bytes texts.now)
        (image_call_answer result) }
    ensures shaped { IfOk result (λ call. IsShapedCall (image_tree image.now) (image_call_tree call)) }
{
    match head_named(&image.heads.items, name.as_bytes()) {
        Some(function) => call_to(alloc, image, function, texts),
        None => Err(CallRefusal::NoFunction),
    }
}

/// The call of the function of this number.
fn call_to(
    alloc: Global,
    image: &Image,
    function: u32,
    texts: &[String],
) -> Result<ImageCall, CallRefusal>
    requires function { function < length (image_tree image.now).heads }
    requires verified { IsVerified (image_tree image.now) }
    requires few { length (image_tree image.now).records ≤ 16777216 }
    requires short { All (λ (text : List ℕ). length text ≤ 1048576) (map string_bytes texts.now) }
    ensures { (h : HeadTree) → slice_get (image_tree image.now).heads function ≡ Some h
        → IsImageCallTo (image_tree image.now) function h (map string_bytes texts.now) (image_call_answer result) }
{
    let heads: &[Head] = &image.heads.items;
    let head = &heads[function as usize];
    if texts.len() != head.params.items.len() {
        return Err(CallRefusal::WrongCount);
    }
    match arguments_of(alloc, image, &head.params.items, texts) {
        Ok(inputs) => Ok(ImageCall { function, inputs }),
        Err(refusal) => Err(refusal),
    }
}

/// The inputs that the texts are, one at each shape, over the image's records.
fn arguments_of(
    alloc: Global,
    image: &Image,
    shapes: &[Shape],
    texts: &[String],
) -> Result<Inputs, CallRefusal>
    requires form { HasForm (image_tree image.now) }
    requires formed { IsFormed (image_program (image_tree image.now)) }
    requires shapes { All (IsShapeIn (image_tree image.now).records) (map shape_tree shapes.now) }
    requires count { length texts.now ≡ length shapes.now }
    requires few { length texts.now ≤ 16 }
    requires short { All (λ (text : List ℕ). length text ≤ 1048576) (map string_bytes texts.now) }
    ensures { AreArgumentsRead (known_in (image_tree image.now)) (map shape_tree shapes.now)
        (map string_bytes texts.now) result }
{
    match program_of(alloc, image) {
        Ok(program) => {
            let abbreviations = Abbreviations::from_vec(Vec::new(alloc));
            let inputs = inputs_of(alloc, &program, &abbreviations, shapes, texts);
            program.discard();
            inputs
        }
        Err(_) => Err(CallRefusal::NoMemory),
    }
}

/// The same over a program with its abbreviations.
fn inputs_of(
    alloc: Global,
    program: &Program,
    abbreviations: &Abbreviations,
    shapes: &[Shape],
    texts: &[String],
) -> Result<Inputs, CallRefusal>
    requires formed { IsFormed (program_tree program.now) }
    requires shapes { All (IsShapeIn (program_tree program.now).records) (map shape_tree shapes.now) }
    requires count { length texts.now ≡ length shapes.now }
    requires few { length texts.now ≤ 16 }
    requires short { All (λ (text : List ℕ). length text ≤ 1048576) (map string_bytes texts.now) }
    ensures { AreArgumentsRead (given (program_tree program.now) abbreviations.now) (map shape_tree shapes.now)
        (map string_bytes texts.now) result }
{
    match measures_of(alloc, program, abbreviations) {
        Ok(measures) => {
            let names = known_names(program, abbreviations, &measures);
            let known = Known {
                alloc,
                names: &names,
            };
            let inputs = read_arguments(&known, shapes, texts);
            drop(measures);
            inputs
        }
        Err(_) => Err(CallRefusal::NoMemory),
    }
}

/// The program of the image's records alone: it has no base units and no functions. `NoMemory` is its one error.
pub fn program_of(alloc: Global, image: &Image) -> Result<Program, NoMemory>
    requires { HasForm (image_tree image.now) }
    ensures { IfOk result (λ program. program_tree program ≡ image_program (image_tree image.now)) }
{
    let records = plain_records(alloc, &image.records)?;
    let bases = Names::from_vec(Vec::new(alloc));
    let functions = Functions {
        items: Vec::new(alloc),
    };
    Ok(Program {
        bases,
        records,
        functions,
    })
}
