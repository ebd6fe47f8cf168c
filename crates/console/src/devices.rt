// The words of a line that describe devices: layers, each followed by a slash, and then the projector.
ghost use Rattle.std.specs.Prelude.{◌≡◌, map, IfOk, vec_items};
ghost use Rattle.std.specs.Option.{option_map};
ghost use Rattle.console.specs.Devices.{all_some, device_of, layer_of, patch_of, pieces, plan_from, replies_of};
ghost use Rattle.console.specs.Words.{words};
ghost use Rattle.console.specs.Plans.{planned};

use crate::digits::hex_bytes;
use crate::layer::Layer;
use crate::plan::Plan;
use crate::words::is_blank;
use std::alloc::{AllocError, Global};

// None where a word describes no device.
pub(crate) fn parse_devices(heap: Global, text: &[u8]) -> Result<Option<Vec<Plan>>, AllocError>
    ensures { IfOk result (λ o. option_map (λ v. map planned v.items) o ≡ all_some (map device_of (words text.now))) }
{
    let words = words(heap, text)?;
    let mut plans = Vec::new(heap);
    for word in &words {
        match parse_device(heap, word)? {
            Some(plan) => plans.push(plan)?,
            None => return Ok(None),
        }
    }
    Ok(Some(plans))
}

// What stands between blanks.
fn words<'a>(heap: Global, text: &'a [u8]) -> Result<Vec<&'a [u8]>, AllocError>
    ensures { IfOk result (λ v. map (λ word. word.now) v.items ≡ words text.now) }
{
    text.split(|byte| is_blank(*byte))
        .filter(|word| !word.is_empty())
        .collect(heap)
}

fn parse_device(heap: Global, word: &[u8]) -> Result<Option<Plan>, AllocError>
    ensures { IfOk result (λ o. option_map planned o ≡ device_of word.now) }
{
    match pieces(heap, word)?.split_last() {
        Some((projector, layers)) => {
            let layers = parse_layers(heap, layers)?;
            let replies = parse_replies(heap, projector)?;
            Ok(plan_from(layers, replies))
        }
        None => Ok(None),
    }
}

// What stands between slashes.
fn pieces<'a>(heap: Global, word: &'a [u8]) -> Result<Vec<&'a [u8]>, AllocError>
    ensures { IfOk result (λ v. map (λ piece. piece.now) v.items ≡ pieces word.now) }
{
    word.split(|byte| *byte == b'/').collect(heap)
}

fn plan_from(layers: Option<Vec<Layer>>, replies: Option<Vec<u8>>) -> Option<Plan>
    ensures { option_map planned result ≡ plan_from (option_map vec_items layers) (option_map vec_items replies) }
{
    Plan::new(layers?, replies?)
}

fn parse_layers(heap: Global, pieces: &[&[u8]]) -> Result<Option<Vec<Layer>>, AllocError>
    ensures { IfOk result (λ o. option_map vec_items o ≡ all_some (map layer_of (map (λ piece. piece.now) pieces.now))) }
{
    let mut layers = Vec::new(heap);
    for piece in pieces {
        match parse_layer(heap, piece)? {
            Some(layer) => layers.push(layer)?,
            None => return Ok(None),
        }
    }
    Ok(Some(layers))
}

fn parse_layer(heap: Global, piece: &[u8]) -> Result<Option<Layer>, AllocError>
    ensures { IfOk result (λ o. o ≡ layer_of piece.now) }
{
    if piece == b"trail".as_slice() {
        return Ok(Some(Layer::Trail));
    }
    match piece.strip_prefix(b"patch=".as_slice()) {
        Some(digits) => match hex_bytes(heap, digits)? {
            Some(bytes) => Ok(patch_of(&bytes)),
            None => Ok(None),
        },
        None => Ok(None),
    }
}

fn patch_of(bytes: &[u8]) -> Option<Layer>
    ensures { result ≡ patch_of bytes.now }
{
    match <[u8; 16]>::try_from(bytes) {
        Ok(map) => Some(Layer::Patch(map)),
        Err(_) => None,
    }
}

// Without digits a projector has no replies.
fn parse_replies(heap: Global, piece: &[u8]) -> Result<Option<Vec<u8>>, AllocError>
    ensures { IfOk result (λ o. option_map vec_items o ≡ replies_of piece.now) }
{
    match piece.strip_prefix(b"projector".as_slice()) {
        Some([]) => Ok(Some(Vec::new(heap))),
        Some([b':', digits @ ..]) => hex_bytes(heap, digits),
        _ => Ok(None),
    }
}
