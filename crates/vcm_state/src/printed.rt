//! What programs read of features.

ghost use Rattle.std.specs.Prelude.{◌≡◌, IfOk};
ghost use Rattle.vcm_spec.specs.Effect.{word_of};
ghost use Rattle.vcm_spec.specs.Texts.{feature_line};

use std::alloc::Global;
use vcm_num::{Items, NoMemory, write_int, write_thousandths};
use vcm_spec::{Feature, FeatureWord, Source};

/// A word of a feature: a coordinate, in micrometres, or a component of its direction, in thousandths.
pub(crate) fn word_of(feature: Feature, word: FeatureWord) -> i64
    ensures { result ≡ word_of feature word }
{
    match word {
        FeatureWord::X => feature.at.0[0],
        FeatureWord::Y => feature.at.0[1],
        FeatureWord::Z => feature.at.0[2],
        FeatureWord::I => feature.toward.component(0) * 1000,
        FeatureWord::J => feature.toward.component(1) * 1000,
        FeatureWord::K => feature.toward.component(2) * 1000,
    }
}

/// The printed line of a feature.
///
/// Errors: want of memory.
pub(crate) fn feature_line(
    alloc: Global,
    source: Source,
    name: &[u8],
    feature: Feature,
) -> Result<Items<u8>, NoMemory>
    ensures { IfOk result (λ line. line ≡ feature_line source name.now feature) }
{
    let mut out = Vec::new(alloc);
    out.extend_from_slice(source.letters())?;
    out.extend_from_slice(name)?;
    out.extend_from_slice(b")=FEAT/POINT,CART,")?;
    write_thousandths(feature.at.0[0], &mut out)?;
    out.extend_from_slice(b",")?;
    write_thousandths(feature.at.0[1], &mut out)?;
    out.extend_from_slice(b",")?;
    write_thousandths(feature.at.0[2], &mut out)?;
    out.extend_from_slice(b",")?;
    write_int(feature.toward.component(0), &mut out)?;
    out.extend_from_slice(b",")?;
    write_int(feature.toward.component(1), &mut out)?;
    out.extend_from_slice(b",")?;
    write_int(feature.toward.component(2), &mut out)?;
    Ok(Items::from_vec(out))
}
