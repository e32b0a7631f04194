//! The fixed parts of the HTML page.

/// The beginning of the page, up to the styles.
pub(crate) const HEAD: &str = r##"<!DOCTYPE html>
<html lang="en">
<head>
<meta charset="utf-8">
<meta name="viewport" content="width=device-width, initial-scale=1">
<meta http-equiv="Content-Security-Policy"
 content="default-src 'none'; style-src 'unsafe-inline'; script-src 'unsafe-inline'">
<title>Differences</title>
<style>
"##;

/// The part between the styles and the report.
pub(crate) const BODY: &str = r##"</style>
</head>
<body>
<a class="skip" href="#differences">To the differences</a>
<h1 id="title">Differences</h1>
<noscript><p>A script shows the differences. They stand in the source of this page too, as JSON
lines.</p></noscript>
<main>
<ul class="counts" id="counts" aria-label="Counts"></ul>
<p id="notes"></p>
<section id="by-column" class="hidden" aria-labelledby="by-column-title">
<h2 id="by-column-title">Cells that differ, by column</h2>
<table class="bars"><tbody id="bars"></tbody></table>
</section>
<section aria-labelledby="differences">
<h2 id="differences" tabindex="-1">Differences</h2>
<form id="filter" role="search">
<fieldset><legend>Kinds</legend>
<label><input type="checkbox" name="kind" value="changed" checked> changed</label>
<label><input type="checkbox" name="kind" value="removed" checked> removed</label>
<label><input type="checkbox" name="kind" value="added" checked> added</label>
</fieldset>
<label><span class="label">Column</span>
<select id="column"><option value="">all</option></select></label>
<label><span class="label">Text</span><input type="search" id="text" autocomplete="off"></label>
<button type="button" class="plain" id="clear">Clear</button>
</form>
<p id="shown" role="status" aria-live="polite"></p>
<table class="rows">
<thead><tr><th scope="col">Kind</th><th scope="col">Key</th>
<th scope="col">What differs</th><th scope="col">Line</th></tr></thead>
<tbody id="rows"></tbody>
</table>
<p class="more"><button type="button" class="plain hidden" id="more">Show more</button></p>
</section>
</main>
<script type="application/x-ndjson" id="report">
"##;

/// The part between the report and the script.
pub(crate) const MIDDLE: &str = r##"</script>
<script>
"##;

/// The end of the page, after the script.
pub(crate) const END: &str = r##"</script>
</body>
</html>
"##;
