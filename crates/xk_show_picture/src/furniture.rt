//! What stands in each picture: how things look, shapes, and what they mean.

ghost use Rattle.std.specs.Prelude.{◌≡◌};
ghost use Rattle.xk_show_picture.specs.Furniture.{legend, shapes, style};

/// Colours and letters, in light and in dark.
#[tactic(auto, unfolding(crate::specs::Furniture::style))]
pub(crate) fn style() -> &'static str
    ensures { result.now ≡ style }
{
    "\
<style>\n\
text{font:12px monospace;fill:#1f2328}\n\
.paper{fill:#ffffff}\n\
.number{text-anchor:end}\n\
.at,.number{fill:#656d76}\n\
.lane,.words{text-anchor:middle}\n\
.lane{font-weight:bold}\n\
.life rect{fill:#e4e7ec;stroke:#7a828e}\n\
.clock rect{fill:#dbe9fb;stroke:#2f6fc0}\n\
.shared rect{fill:#dcf3e0;stroke:#2b8a4b}\n\
.print rect{fill:#fdeec6;stroke:#b58110}\n\
.free{stroke:#8c959f;stroke-width:2}\n\
.held{fill:url(#hatch)}\n\
.hatch{fill:#fbe3e1}\n\
.lines{stroke:#cf4a3f;stroke-width:1}\n\
.bar{stroke:#b3261e;stroke-width:3}\n\
.ring{fill:#ffffff;stroke:#b3261e;stroke-width:2}\n\
.start{stroke:#57606a;stroke-dasharray:5 3;marker-end:url(#tip)}\n\
.tip{fill:#57606a}\n\
.even{fill:#b6c9e6}\n\
.odd{fill:#e9cda0}\n\
@media (prefers-color-scheme:dark){\n\
text{fill:#e6edf3}\n\
.paper{fill:#0d1117}\n\
.at,.number{fill:#9198a1}\n\
.life rect{fill:#2a3038}\n\
.clock rect{fill:#14335c;stroke:#5c9ded}\n\
.shared rect{fill:#123d22;stroke:#4cb86f}\n\
.print rect{fill:#4a3808;stroke:#d9a62e}\n\
.hatch{fill:#3a1a18}\n\
.bar,.ring{stroke:#ff7b72}\n\
.ring{fill:#0d1117}\n\
.start{stroke:#adb5bf}\n\
.tip{fill:#adb5bf}\n\
.even{fill:#36507a}\n\
.odd{fill:#6e5426}\n\
}\n\
</style>\n"
}

/// Shapes that are used again and again, and the paper.
#[tactic(auto, unfolding(crate::specs::Furniture::shapes))]
pub(crate) fn shapes() -> &'static str
    ensures { result.now ≡ shapes }
{
    "\
<defs>\n\
<pattern id='hatch' width='8' height='8' patternUnits='userSpaceOnUse'><rect class='hatch' width='8' height='8'/><path class='lines' d='M-1 1l2 -2M0 8l8 -8M7 9l2 -2'/></pattern>\n\
<marker id='tip' markerWidth='10' markerHeight='10' refX='8' refY='4' orient='auto' markerUnits='userSpaceOnUse'><path class='tip' d='M0 0l9 4l-9 4z'/></marker>\n\
<path id='free' class='free' d='M0 0v24'/>\n\
<rect id='held' class='held' x='-6' width='12' height='24'/>\n\
<circle id='ring' class='ring' r='4'/>\n\
<rect id='even' class='even' width='10' height='24'/>\n\
<rect id='odd' class='odd' width='10' height='24'/>\n\
</defs>\n\
<rect class='paper' width='100%' height='100%'/>\n"
}

/// What the shapes mean, and the titles of the first two columns.
#[tactic(auto, unfolding(crate::specs::Furniture::legend))]
pub(crate) fn legend() -> &'static str
    ensures { result.now ≡ legend }
{
    "\
<g class='life'><rect x='16' y='14' width='32' height='18' rx='3'/></g><text x='60' y='27'>a step that others see</text>\n\
<use href='#free' x='264' y='11'/><text x='284' y='27'>can take a step</text>\n\
<use href='#held' x='464' y='11'/><text x='484' y='27'>is held back</text>\n\
<path class='bar' d='M16 55h32'/><use href='#ring' x='32' y='55'/><text x='60' y='59'>a clock advances</text>\n\
<path class='start' d='M248 55h28'/><text x='284' y='59'>starts an activity</text>\n\
<use href='#even' x='454' y='43'/><use href='#odd' x='464' y='43'/><text x='484' y='59'>phases of a clock</text>\n\
<text class='number' x='80' y='104'>step</text><text class='at' x='88' y='104'>at</text>\n"
}
