//! The head of a page, with its style sheet.

/// What comes before the data. The browser is to fetch nothing.
pub(crate) const HEAD: &str = r##"<!doctype html>
<html lang="en">
<head>
<meta charset="utf-8">
<meta http-equiv="Content-Security-Policy"
content="default-src 'none'; style-src 'unsafe-inline'; script-src 'unsafe-inline'">
<meta name="viewport" content="width=device-width,initial-scale=1">
<title>A run</title>
<style>
*{box-sizing:border-box}
body{font:13px system-ui,sans-serif;color:#111;background:#fff}
.live{margin:0;height:100vh;display:flex;flex-direction:column}
code,samp,pre,.source{font-family:ui-monospace,"DejaVu Sans Mono",monospace;font-size:12px}
header{padding:6px 10px;background:#eef2f7;border-bottom:1px solid #94a3b8}
h1{display:inline;font-size:15px;margin:0 12px 0 0}
h2{font-size:13px;margin:10px 0 4px}
.outcome{font-weight:700}
.outcome.fails{color:#b91c1c}
.tools{display:flex;flex-wrap:wrap;gap:4px 8px;align-items:center;margin-top:4px}
fieldset{display:flex;flex-wrap:wrap;gap:2px 10px;border:0;padding:0;margin:0;max-height:66px;overflow:auto}
legend{float:left;padding:0 6px 0 0}
button{font:inherit;padding:2px 8px}
:focus-visible{outline:3px solid #1d4ed8;outline-offset:1px}
main{flex:1;min-height:0;display:flex}
.run{flex:3;min-width:0;display:flex;flex-direction:column;border-right:1px solid #94a3b8}
.run>h2{margin:4px 10px}
.chart{flex:1;overflow:auto;position:relative}
.heads{position:sticky;top:0;z-index:3;height:36px;background:#fff;border-bottom:1px solid #94a3b8}
.heads span{position:absolute;top:1px;height:33px;padding:0 4px;overflow:hidden;white-space:nowrap;background:#e2e8f0;
border-radius:3px;line-height:16px;text-overflow:ellipsis}
.heads b{display:block}
.chart svg{position:absolute;left:0;top:36px;z-index:1;pointer-events:none}
.chart ol{list-style:none;margin:0;padding:0;position:relative}
.chart li{height:22px;line-height:22px;white-space:nowrap;position:relative;cursor:pointer}
.chart li::before{content:attr(data-number);position:absolute;left:0;width:40px;text-align:right;color:#475569}
.chart li code{position:relative;z-index:2;padding:0 3px;background:#fffc;
display:inline-block;max-width:280px;overflow:hidden;text-overflow:ellipsis;vertical-align:top}
.chart li samp,.chart li small{display:none}
.shows .chart li samp{display:inline;position:relative;z-index:2;background:#fffc}
.chart li.past{background:#f1f5f9}
.chart li.cause{background:#fef3c7}
.chart li.now{background:#fde68a;box-shadow:inset 4px 0 #92400e}
.chart li.match code{text-decoration:underline 2px #1d4ed8}
.chart li.differs{border-top:3px dashed #6b21a8}
.chart li.bad code{color:#991b1b;font-weight:700}
.chart li.fails{background:#fecaca}
.chart li.fails.now{box-shadow:inset 8px 0 #b91c1c}
.chart li.fails code{color:#7f1d1d;background:#fecaca;font-weight:700}
.chart li.fails::after{content:"fails here";position:relative;z-index:2;margin-left:8px;color:#7f1d1d;font-weight:700}
.life{stroke:#64748b}
.mark{fill:#1d4ed8}
.mark.receive{fill:#111}
.mark.bad{fill:#b91c1c}
.arrow{fill:none;stroke:#60a5fa;stroke-width:1.3;marker-end:url(#head)}
.arrow.spawn{stroke:#475569;stroke-dasharray:4 3}
.arrow.other{stroke:#7e22ce;stroke-dasharray:7 3}
.arrow.lost{marker-end:none;stroke-dasharray:2 3}
.arrow.lit{stroke:#b45309;stroke-width:3}
aside{flex:2;min-width:300px;max-width:560px;display:flex;flex-direction:column;padding:0 10px}
aside .box{overflow:auto;max-height:34vh}
#event pre{white-space:pre-wrap;overflow-wrap:anywhere;margin:2px 0;padding:4px;background:#f1f5f9}
caption{text-align:left}
table{border-collapse:collapse;width:100%}
th,td{text-align:left;vertical-align:top;padding:2px 6px;border-top:1px solid #cbd5e1}
td ol{margin:0;padding-left:20px}
td code{overflow-wrap:anywhere}
tr.now th{background:#fde68a}
.source{flex:1;overflow:auto;margin:0 0 8px;background:#f8fafc;white-space:pre;tab-size:8;min-height:120px}
.source div{min-width:max-content;padding-left:96px;position:relative}
.source div::before{content:attr(data-line);position:absolute;left:54px;width:34px;text-align:right;color:#475569}
.source div::after{content:attr(data-at);position:absolute;left:2px;color:#1d4ed8;font-weight:700}
.source div.lit{background:#fde68a}
.source div.lit::before{font-weight:700;color:#111}
details{display:inline-block}
kbd{border:1px solid #64748b;border-radius:3px;padding:0 4px;font-size:11px}
[hidden]{display:none!important}
</style>
</head>
<body>
"##;
