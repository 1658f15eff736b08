// Tracking: space added to each glyph.
ghost use Rattle.std.specs.Prelude.{◌≡◌, ◌≤◌, nat_le};
ghost use Rattle.std.proofs.Common.{rules};
ghost use Rattle.measure.specs.Layers.{tracked};
ghost use Rattle.measure.specs.Settings.{SetUp};
ghost use Rattle.measure.specs.declared.settings.SettingName.TheVariants.{Spacing};

use crate::exact::{ExactMeasure, MOST};
use crate::layer::Layer;
use crate::layered::Layered;
use crate::settings::{SettingFault, SettingName};

/// The largest spacing.
const WIDEST_SPACING: u32 = 1_023;

/// The layer of a tracking: the spacing that each glyph gets.
#[derive(Clone, Copy)]
pub struct LetterSpacing {
    spacing: u32,
    ghost ok: { spacing ≤ 1023 },
}

impl LetterSpacing {
    /// A spacing of 0 to 1,023.
    pub fn new(spacing: u32) -> Result<LetterSpacing, SettingFault>
        ensures { SetUp (nat_le spacing 1023) Spacing (λ s. s.spacing ≡ spacing) result }
    {
        if spacing <= WIDEST_SPACING {
            Ok(LetterSpacing { spacing })
        } else {
            Err(SettingName::Spacing.out_of_range())
        }
    }
}

impl Default for LetterSpacing {
    ghost is_default = { λ s. s.spacing ≡ 0 };

    /// No spacing at all.
    fn default() -> LetterSpacing {
        LetterSpacing { spacing: 0 }
    }
}

impl Layer for LetterSpacing {
    ghost changed = { λ s n. tracked s.spacing n };

    ghost stays_small = { Prim.search rules };

    fn change(&self, n: u32) -> u32 {
        if n == 0 {
            0
        } else {
            n.saturating_add(self.spacing).min(MOST)
        }
    }
}

/// Tracking over an exact measure, which may be a tracking itself: a glyph of width 0 keeps 0, any other gets the spacing added, up to 131,071.
pub type Tracking<M> = Layered<LetterSpacing, M>;

impl<M: ExactMeasure + Drop> Layered<LetterSpacing, M> {
    /// A tracking with a spacing of 0 to 1,023.
    pub fn new(inner: M, spacing: u32) -> Result<Tracking<M>, SettingFault>
        ensures { SetUp (nat_le spacing 1023) Spacing (λ t. (t.inner ≡ inner) × (t.layer.spacing ≡ spacing)) result }
    {
        let layer = LetterSpacing::new(spacing)?;
        Ok(Layered::of(layer, inner))
    }
}
