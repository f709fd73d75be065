//! What the colours and shapes of a picture say.
use crate::paper::part_y;
use craft_base::OutOfMemory;
use std::fmt::Write;

/// The samples, three in a row, each with its words, in places of 200 by 26 pixels.
const LEGEND: &str = "\
<path class=\"lane follower\" d=\"M20 20h34\"/><text x=\"62\" y=\"24\">follower</text>
<path class=\"lane candidate\" d=\"M220 20h34\"/><text x=\"262\" y=\"24\">candidate</text>
<path class=\"lane preparing\" d=\"M420 20h34\"/><text x=\"462\" y=\"24\">prepares to lead</text>
<path class=\"lane leader\" d=\"M20 46h34\"/><text x=\"62\" y=\"50\">leader; t1: in term 1</text>
<path class=\"lane down\" d=\"M220 46h34\"/><text x=\"262\" y=\"50\">down</text>
<path class=\"commit\" d=\"M420 50h17v-9h17\"/><text x=\"462\" y=\"50\">committed up to</text>
<path class=\"frame\" d=\"M20 72h34\"/><text x=\"62\" y=\"76\">frame; w whole, p part</text>
<path class=\"frame again\" d=\"M220 72h34\"/><text x=\"262\" y=\"76\">taken once more</text>
<path class=\"stub\" d=\"M420 72h24\"/><use href=\"#cross\" class=\"lost\" x=\"444\" y=\"72\"/><text x=\"462\" y=\"76\">never taken</text>
<circle class=\"dot\" cx=\"37\" cy=\"98\" r=\"3\"/><text x=\"62\" y=\"102\">tick</text>
<path class=\"dot\" d=\"M231 92h12l-6 12z\"/><text x=\"262\" y=\"102\">call; 7: reply to client 7</text>
<circle class=\"idle\" cx=\"437\" cy=\"98\" r=\"4\"/><text x=\"462\" y=\"102\">skipped</text>
<use href=\"#cross\" class=\"halt\" x=\"37\" y=\"124\"/><text x=\"62\" y=\"128\">stop 3: in device call 3</text>
<use href=\"#scissors\" class=\"cut\" x=\"235\" y=\"124\"/><text x=\"262\" y=\"128\">entries from there cut</text>
<use href=\"#square\" class=\"whole\" x=\"437\" y=\"124\"/><text x=\"462\" y=\"128\">became whole</text>
<circle class=\"dot\" cx=\"37\" cy=\"150\" r=\"4\"/><text x=\"62\" y=\"154\">a frame is taken</text>
<path class=\"halt\" d=\"M232 141v18\"/><path class=\"dot\" d=\"M240 143 251 150 240 157z\"/><text x=\"262\" y=\"154\">goes down; starts</text>
<circle class=\"idle\" cx=\"437\" cy=\"150\" r=\"6\"/><circle class=\"dot\" cx=\"437\" cy=\"150\" r=\"2.5\"/><text x=\"462\" y=\"154\">shows its disk</text>
";

/// Draws the legend below so many parts.
pub(crate) fn push_legend(
    drawing: &mut String,
    parts: u64,
    members: u8,
) -> Result<(), OutOfMemory> {
    let y = part_y(parts, members);
    writeln!(drawing, "<g transform=\"translate(0 {y})\">")?;
    drawing.push_str(LEGEND)?;
    drawing.push_str("</g>\n")?;
    Ok(())
}
