//! Colours and shapes. The colours of members and marks are of Okabe and Ito's palette (2008), chosen so that people who see colours
//! differently tell them apart; what a colour says, a word, a width or a shape says too.

/// The style, for a light and for a dark page, and the tip of an arrow.
pub(crate) const STYLE: &str = "\
<style>
text { font: 11px Verdana, 'DejaVu Sans', sans-serif; fill: #222; }
.title { font-size: 16px; }
.member { font-size: 13px; }
.asked { font-size: 10.5px; }
.label { font-size: 10px; paint-order: stroke; stroke: #fff; stroke-width: 3px; }
.role { font-weight: bold; }
.paper { fill: #fff; }
.guide { stroke: #e2e2e2; }
.lane { fill: none; }
.follower { stroke: #56b4e9; stroke-width: 4; }
.candidate { stroke: #e69f00; stroke-width: 7; }
.preparing { stroke: #cc79a7; stroke-width: 9; }
.leader { stroke: #009e73; stroke-width: 12; }
.down { stroke: #8c8c8c; stroke-width: 2; stroke-dasharray: 3 8; }
.dot { fill: #222; stroke: #fff; }
.frame { stroke: #222; stroke-width: 1.2; fill: none; marker-end: url(#tip); }
.again { stroke-dasharray: 6 4; }
.stub { stroke: #222; stroke-width: 1.2; fill: none; }
.tip { fill: #222; }
.lost { stroke: #d55e00; stroke-width: 2.4; fill: none; }
.later { fill: #6b6b6b; }
.commit { stroke: #0072b2; stroke-width: 1.6; fill: none; }
.index { font-size: 10px; fill: #0072b2; paint-order: stroke; stroke: #fff; stroke-width: 3px; }
.whole { fill: #f0e442; stroke: #222; }
.cut { stroke: #222; stroke-width: 1.6; fill: none; }
.halt { stroke: #222; stroke-width: 3; fill: none; }
.idle { fill: none; stroke: #8c8c8c; }
.grey { fill: #6b6b6b; }
@media (prefers-color-scheme: dark) {
text { fill: #e8e8e8; }
.label, .index { stroke: #16181d; }
.paper { fill: #16181d; }
.guide { stroke: #2e323a; }
.dot { fill: #e8e8e8; stroke: #16181d; }
.frame, .stub, .cut, .halt { stroke: #e8e8e8; }
.tip { fill: #e8e8e8; }
.whole { stroke: #e8e8e8; }
.commit { stroke: #f0e442; }
.index { fill: #f0e442; }
.grey, .later { fill: #8c8c8c; }
}
</style>
<defs>
<marker id=\"tip\" viewBox=\"0 0 10 10\" refX=\"9\" refY=\"5\" markerWidth=\"8\" markerHeight=\"8\" orient=\"auto\">
<path class=\"tip\" d=\"M0 1 10 5 0 9z\"/>
</marker>
<path id=\"cross\" d=\"M-5 -5 5 5M-5 5 5 -5\"/>
<g id=\"scissors\"><path d=\"M-2 -2 11 8M-2 2 11 -8\"/><circle cx=\"-5\" cy=\"-4\" r=\"3\"/><circle cx=\"-5\" cy=\"4\" r=\"3\"/></g>
<path id=\"square\" d=\"M-6 -6h12v12h-12z\"/>
</defs>
";
