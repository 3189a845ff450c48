// Writing a list of features.

ghost use Rattle.std.specs.Prelude.{◌≡◌, ◌≤◌, ◌++◌, ◌∷◌, [], length, map, All, codes, decimal, OnOk};
ghost use Rattle.contact_ledger.specs.Names.{AllByRecursion, Writes, IsOrigin, text_of, spaced, IsOnWire, CanBeWritten, IsFeature, AreFeatures, IsWrittenOrigin, origin_fields, point_line, feature_lines, lines_of_all, features_text, Second};

use crate::features::{Feature, Origin};
use crate::fields::{add_first_length, add_frame, add_length, add_name, add_number};
use fixed_um::Point;
use std::alloc::AllocError;

fn add_origin(text: &mut Vec<u8>, origin: Option<Origin>) -> Result<(), AllocError>
    requires { IsOrigin origin }
    ensures text { OnOk result (text.new.items ≡ text.old.items ++ spaced (origin_fields origin)) }
    ensures origin { OnOk result (IsWrittenOrigin origin) }
{
    match origin {
        None => text.extend_from_slice(b" -"),
        Some(origin) => {
            add_number(text, origin.connection)?;
            add_frame(text, origin.frame)
        }
    }
}

fn add_point_line(text: &mut Vec<u8>, point: Point) -> Result<(), AllocError>
    ensures text { OnOk result (text.new.items ≡ text.old.items
        ++ text_of (point_line point ∷ [])) }
    ensures point { OnOk result (IsOnWire point) }
{
    add_first_length(text, point.x)?;
    add_length(text, point.y)?;
    add_length(text, point.z)?;
    text.push(b'\n')?;
    Ok(())
}

fn add_points(text: &mut Vec<u8>, points: &[Point]) -> Result<(), AllocError>
    ensures text { OnOk result (text.new.items ≡ text.old.items
        ++ text_of (map point_line points.now)) }
    ensures points { OnOk result (AllByRecursion IsOnWire points.now) }
{
    for point in points {
        add_point_line(text, *point)?;
    }
    Ok(())
}

fn add_feature(text: &mut Vec<u8>, feature: &Feature) -> Result<(), AllocError>
    requires { CanBeWritten feature.now }
    ensures text { OnOk result (text.new.items ≡ text.old.items
        ++ text_of (feature_lines Second feature.now)) }
    ensures feature { OnOk result (IsFeature Second feature.now) }
{
    text.extend_from_slice(b"FEATURE")?;
    add_name(text, &feature.label)?;
    add_number(text, feature.points.len() as u64)?;
    add_origin(text, feature.origin)?;
    text.push(b'\n')?;
    add_points(text, feature.points.as_slice())?;
    text.extend_from_slice(b"END\n")
}

fn add_features(text: &mut Vec<u8>, features: &[Feature]) -> Result<(), AllocError>
    requires { AllByRecursion CanBeWritten features.now }
    ensures text { OnOk result (text.new.items ≡ text.old.items
        ++ text_of (lines_of_all Second features.now)) }
    ensures features { OnOk result (AreFeatures Second features.now) }
{
    for feature in features {
        add_feature(text, feature)?;
    }
    Ok(())
}

/// Appends the text of these features, in version 2 (this profile): `DME-FEATURES 2`; for each feature `FEATURE name n`, its origin as
/// its connection and frame, or `-` if it is unknown, its points in millimetres, and `END`.
///
/// Each feature must have 1 to 10,000 points, and a connection from 1 to 4,000,000,000 where the origin is known. Fails only if out of
/// memory, and then nothing is appended.
pub fn write_features(out: &mut Vec<u8>, features: &[Feature]) -> Result<(), AllocError>
    requires { AllByRecursion CanBeWritten features.now }
    ensures writes { Writes result out.old out.new (features_text Second features.now) }
    ensures features { OnOk result (AreFeatures Second features.now) }
{
    let mut text = Vec::new(*out.allocator());
    text.extend_from_slice(b"DME-FEATURES 2\n")?;
    add_features(&mut text, features)?;
    out.extend_from_slice(text.as_slice())
}
