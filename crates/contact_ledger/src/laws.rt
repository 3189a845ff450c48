// What follows from the definitions alone. Each function has laws for its contract and does nothing.

ghost use Rattle.std.specs.Prelude.{◌≡◌, ◌<◌, ◌++◌, ◌∷◌, [], ℕ, List, length, take};
ghost use Rattle.contact_ledger.specs.Names.{text_of, IsFeature, AreFeatures, IsFeatures, IsDamagedFeatures, header, feature_lines, features_text, Feature, Version};

/// A text of features is read in one way: it says one list, or a line of it is damaged.
pub fn features_are_read_in_one_way()
    ensures one { (bytes : List ℕ) (a b : List Feature)
        → IsFeatures bytes a → IsFeatures bytes b → a ≡ b }
    ensures never_both { (bytes : List ℕ) (a : List Feature) (n : ℕ)
        → IsFeatures bytes a → IsDamagedFeatures bytes n → ⊥ }
{}

/// A written text, of either version, says its list. Cut within its first line it says no feature; cut within a feature, it says those
/// above it, also where nothing but the last LF is missing.
pub fn written_features_are_read_back()
    ensures whole { (version : Version) (features : List Feature)
        → AreFeatures version features → IsFeatures (features_text version features) features }
    ensures cut_header { (version : Version) (k : ℕ) → k < length (text_of (header version ∷ []))
        → IsFeatures (take k (text_of (header version ∷ []))) [] }
    ensures cut_feature { (version : Version) (above : List Feature) (f : Feature) (k : ℕ)
        → AreFeatures version above → IsFeature version f
        → k < length (text_of (feature_lines version f)) → IsFeatures
        (features_text version above ++ take k (text_of (feature_lines version f))) above }
{}
