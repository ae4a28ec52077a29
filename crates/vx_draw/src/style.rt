//! The start of a picture, and its colours, which a reader may change.

/// What stands before the size.
pub const HEAD: &[u8] =
    b"<svg xmlns=\"http://www.w3.org/2000/svg\" version=\"1.1\" font-family=\"monospace\" font-size=\"11\"";

/// The colours of each class, the hatching of waits, and what the marks mean.
pub const STYLE: &[u8] = b"<style type=\"text/css\">
svg { background: #fff; }
text { fill: #000; white-space: pre; }
.h { font-weight: bold; font-size: 13px; }
.n { fill: #777; text-anchor: end; }
.m { font-size: 9px; }
.waits { fill: #555; font-style: italic; }
.refused { fill: #b00000; font-weight: bold; }
.wrong { fill: #b00000; font-weight: bold; text-decoration: underline; }
.rule { stroke: #ddd; }
.user { fill: #cfe3f5; }
.super { fill: #8fc98f; }
.exec { fill: #e5a03c; }
.kernel { fill: #b03a3a; }
.wait { fill: url(#hatch); }
rect { stroke: #333; stroke-width: 0.7; }
.request { stroke: #3465a4; fill: none; opacity: 0.55; }
.serve { stroke: #3465a4; stroke-width: 6; fill: none; opacity: 0.5; }
.tie { stroke: #999; stroke-dasharray: 2 2; fill: none; }
.on { fill: #000; stroke: #000; }
.off { fill: #fff; stroke: #000; }
</style>
<defs><pattern id=\"hatch\" width=\"5\" height=\"5\" patternUnits=\"userSpaceOnUse\"><path d=\"M0 5L5 0\" stroke=\"#333\"/></pattern></defs>
<rect class=\"user\" width=\"9\" height=\"8\" x=\"8\" y=\"4\"/><text class=\"m\" x=\"20\" y=\"12\">user</text>
<rect class=\"super\" width=\"9\" height=\"8\" x=\"52\" y=\"4\"/><text class=\"m\" x=\"64\" y=\"12\">super</text>
<rect class=\"exec\" width=\"9\" height=\"8\" x=\"102\" y=\"4\"/><text class=\"m\" x=\"114\" y=\"12\">exec</text>
<rect class=\"kernel\" width=\"9\" height=\"8\" x=\"146\" y=\"4\"/><text class=\"m\" x=\"158\" y=\"12\">kernel</text>
<rect class=\"wait\" width=\"9\" height=\"8\" x=\"201\" y=\"4\"/><text class=\"m\" x=\"213\" y=\"12\">waits</text>
<path class=\"on\" d=\"M251 4h8v8h-8z\"/><text class=\"m\" x=\"263\" y=\"12\">set</text>
<path class=\"off\" d=\"M289 4h8v8h-8z\"/><text class=\"m\" x=\"301\" y=\"12\">clear</text>
<path class=\"on\" d=\"M339 4h8l-4 8z\"/><text class=\"m\" x=\"351\" y=\"12\">written, woken</text>
<path class=\"off\" d=\"M439 4m0 8h8l-4 -8z\"/><text class=\"m\" x=\"451\" y=\"12\">read</text>
<path class=\"on\" d=\"M483 4m4 0l4 4l-4 4l-4 -4z\"/><text class=\"m\" x=\"495\" y=\"12\">made</text>
<path class=\"off\" d=\"M527 4l8 8m0 -8l-8 8\"/><text class=\"m\" x=\"539\" y=\"12\">gone</text>
";
