//! The text of advice on a tile.
ghost use Rattle.std.specs.Prelude.{◌≡◌, ◌++◌, IfOk, OnOk, string_bytes};
ghost use Rattle.mvt_engine.specs.AdviceText.{advice_data, advice_text};

use crate::dump::{Part, push_list};
use mvt_tile::Advice;
use std::alloc::{AllocError, Global};
use std::fmt::Write;

/// All advice on a tile as one JSON object, with no space and with the keys of each object in the
/// order of their bytes. It is written piece by piece: of memory it takes the text alone.
pub fn advice_text(alloc: Global, advice: &[Advice]) -> Result<String, AllocError>
    ensures { IfOk result (λ text. string_bytes text ≡ advice_text advice.now) }
{
    let mut text = String::new(alloc);
    push_advice(alloc, &mut text, advice)?;
    Ok(text)
}

/// Writes that text after another.
pub fn push_advice(alloc: Global, text: &mut String, advice: &[Advice]) -> Result<(), AllocError>
    ensures { OnOk result (string_bytes text.new
        ≡ string_bytes text.old ++ advice_text advice.now) }
{
    text.push_str("{\"advice\":")?;
    push_list(alloc, text, advice)?;
    text.push_str("}")
}

impl Part for Advice {
    ghost part_data = { advice_data };

    fn push_to(&self, _alloc: Global, text: &mut String) -> Result<(), AllocError> {
        match *self {
            Advice::NoLayer => text.push_str("{\"kind\":\"no_layer\"}"),
            Advice::NoFeature { layer } => {
                write!(text, "{{\"kind\":\"no_feature\",\"layer\":{layer}}}")
            }
            Advice::EqualKey {
                layer,
                first,
                second,
            } => write!(
                text,
                "{{\"first\":{first},\"kind\":\"equal_key\",\"layer\":{layer},\"second\":{second}}}"
            ),
            Advice::EqualId {
                layer,
                first,
                second,
            } => write!(
                text,
                "{{\"first\":{first},\"kind\":\"equal_id\",\"layer\":{layer},\"second\":{second}}}"
            ),
        }
    }
}
