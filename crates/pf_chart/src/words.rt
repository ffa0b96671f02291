//! The words of a chart, as those of its document.

ghost use Rattle.pf_chart.specs.Words.{words};

use pf_svg::Vocabulary;

/// What the words of a chart are in the type of its document.
#[derive(Drop)]
pub(crate) struct ChartWords;

impl Vocabulary for ChartWords {
    ghost words = { words };
}

/// A document in the words of a chart.
pub(crate) type ChartSvg = pf_svg::Svg<ChartWords>;
