//! How the parts of a chart look: all of its style sheet, and the ends of arrows.

/// Kinds differ by colours, and by dashes and shapes.
pub(crate) const STYLE: &str = "<style>\n\
text{font-family:Helvetica,Arial,sans-serif;font-size:11px;fill:#111;paint-order:stroke;stroke:#fff;stroke-width:3px;stroke-linejoin:round}\n\
.sheet{fill:#fff}\n\
.bands{fill:url(#pf-bands)}\n\
.number{text-anchor:end;fill:#555}\n\
.chosen.number,.choice{font-weight:bold;fill:#9a3412}\n\
.page{font-weight:bold}\n\
.outcome{font-size:14px;font-weight:bold}\n\
.legend{fill:#444}\n\
.process text{text-anchor:middle;stroke:none}\n\
.process .pid{font-size:13px;font-weight:bold}\n\
.process rect{fill:#eef2f7;stroke:#333;stroke-width:1.5}\n\
.life{stroke:#333;stroke-width:1.5}\n\
.before{stroke:#999;stroke-dasharray:1 5}\n\
.process .of{font-family:monospace;font-size:10px}\n\
.deadlocked rect,.process.failed rect{fill:#fde8e8;stroke:#b91c1c;stroke-width:3}\n\
.deadlocked text,.process.failed text{fill:#991b1b}\n\
.waiting{stroke:#b91c1c;stroke-width:4}\n\
.arrow path{fill:none;stroke-width:1.5;marker-end:url(#pf-head)}\n\
.lost path{marker-end:url(#pf-open);stroke-width:1}\n\
.dropped path{marker-end:none}\n\
.message path{stroke:#1d4ed8}\n\
.arrow.link path,.arrow.unlink path{stroke:#166534;stroke-dasharray:7 3}\n\
.arrow.monitor path,.arrow.demonitor path{stroke:#6b21a8;stroke-dasharray:2 3}\n\
.arrow.down path{stroke:#6b21a8;stroke-dasharray:9 3 2 3}\n\
.arrow.exit path{stroke:#9a3412;stroke-dasharray:9 3 2 3 2 3}\n\
.arrow.spawn path{stroke:#333;stroke-dasharray:4 4}\n\
.event path{fill:#fff;stroke:#111;stroke-width:1.5}\n\
.event.send path,.event.receive path,.event.exit path,.event.end path{fill:#111}\n\
.event.link path,.event.unlink path,.event.reference path,.event.cut path{fill:none}\n\
.event.dropped path{fill:none;stroke-width:2.5}\n\
.event.chosen text{font-weight:bold;fill:#9a3412}\n\
.arrow.chosen path{stroke-width:3.5}\n\
.event.failed path{fill:#b91c1c;stroke:#b91c1c}\n\
.event.failed text{font-weight:bold;fill:#b91c1c}\n\
</style>\n";

/// The ends of arrows, and every other row a little darker; a row is 26 high, and the first begins at 92.
pub(crate) const DEFINITIONS: &str = "<defs>\n\
<marker id=\"pf-head\" viewBox=\"0 0 10 10\" refX=\"10\" refY=\"5\" markerWidth=\"9\" markerHeight=\"9\" markerUnits=\"userSpaceOnUse\" orient=\"auto\"><polygon points=\"0,0 10,5 0,10\" fill=\"#111\"/></marker>\n\
<marker id=\"pf-open\" viewBox=\"0 0 10 10\" refX=\"1\" refY=\"5\" markerWidth=\"9\" markerHeight=\"9\" markerUnits=\"userSpaceOnUse\" orient=\"auto\"><circle cx=\"5\" cy=\"5\" r=\"4\" fill=\"#fff\" stroke=\"#111\"/></marker>\n\
<pattern id=\"pf-bands\" x=\"0\" y=\"92\" width=\"8\" height=\"52\" patternUnits=\"userSpaceOnUse\"><rect width=\"8\" height=\"26\" fill=\"#f6f6f4\"/></pattern>\n\
</defs>\n";

/// How to read the marks of spawns.
pub(crate) const LEGEND_OF_SPAWNS: &str =
    "A plus in a square is a spawn, and one in an eye a spawn of a process that is watched from its begin.";

/// How to read the ends of arrows.
pub(crate) const LEGEND: &str =
    "A signal goes from who sent it to where it was delivered. It ends in a ring where it never was, and at a cross where it was dropped.";

/// How to read the ends of arrows in a compact chart.
pub(crate) const LEGEND_OF_RECEIPTS: &str =
    "A message goes from its send to its receive, and ends in a ring where there is none; a thick one was delivered by a choice above 0.";

/// How to read the stars.
pub(crate) const LEGEND_OF_CHOICES: &str =
    "A star is where another went although the process that ran before could have gone on: *2/3 is number 2, counted from 0, of three that could go.";
