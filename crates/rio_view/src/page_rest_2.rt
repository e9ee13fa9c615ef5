//! The page of a trace: the script that shows them. Made from `share/page.html` by
//! `tests/view/embed.py --write`.

pub(crate) const REST_2: &[u8] = b"
function start() {
  const fabric = JSON.parse(at('fabric').textContent);
  view.trace = readTrace(at('trace').textContent, fabric);
  at('trace').remove();
  view.times = at('times') && JSON.parse(at('times').textContent);
  at('links').innerHTML = fabric.links.map(([a, b], link) => `<option value='${link}'>`
    + `${escaped(fabric.ports[a])} - ${escaped(fabric.ports[b])}</option>`).join('');
  at('links').size = Math.min(3, Math.max(2, fabric.links.length));
  listen();
  draw();
  filter();
  if (location.hash) jump(Number(location.hash.slice(1)) || 1);
  showWay();
}

start();
</script>
</body>
</html>
";
