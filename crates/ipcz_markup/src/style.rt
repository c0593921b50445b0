//! The style sheet of a picture: light colours, and dark ones if the reader wants them.

ghost use Rattle.std.specs.Prelude.{◌≤◌, length};

const FORMS: &[u8] = b"\
    text{font-family:ui-monospace,SFMono-Regular,Menlo,Consolas,'DejaVu Sans Mono',monospace;white-space:pre}\
    .t9{font-size:9px}.t10{font-size:10px}.t11{font-size:11px}.t13{font-size:13px}.t16{font-size:16px}\
    .b{font-weight:700}.h{paint-order:stroke;stroke-width:3px;stroke-linejoin:round}.m{text-anchor:middle}\
    .e{text-anchor:end}.p{fill:none}.w1,.hair{stroke-width:1}.w2,.prx,.dec{stroke-width:2}.w3{stroke-width:3}\
    .dec{stroke-dasharray:3 3}.da{stroke-dasharray:5 3}.dt{stroke-dasharray:2 3}";

const LIGHT: &[u8] = b"\
    .bg{fill:#ffffff}.zb{fill:#f6f8fa}.nd{fill:#eef2f7}.ac{fill:#d9e6f5}.hair{stroke:#c9d1d9}.bn{fill:#fff3d6}\
    .bi{fill:#7a4d00}.bh{stroke:#fff3d6}.fn{fill:#fbe3e5}.fh{stroke:#fbe3e5}.ink{fill:#1f2328}.dim{fill:#59636e}.halo{stroke:#ffffff}\
    .bar{fill:#6f7a86}.prx{fill:#ffffff;stroke:#b0500a}.dec{fill:#ffffff;stroke:#b0500a}.cellt{fill:#1f2328}\
    .onf{fill:#ffffff}.k0{fill:#f0f1f3}.kS{fill:#dcefdf}.kW{fill:#ffe2a8}.kL{fill:#f3c6cb}.s-item{stroke:#0a58b0}\
    .f-item{fill:#0a58b0}.s-byp{stroke:#b0420b}.f-byp{fill:#b0420b}.s-flush{stroke:#1a7234}.f-flush{fill:#1a7234}\
    .s-call{stroke:#0b6a6a}.f-call{fill:#0b6a6a}.s-bad{stroke:#b3202c}.f-bad{fill:#b3202c}.s-word{stroke:#5b3fa8}\
    .f-word{fill:#5b3fa8}.s-dim{stroke:#59636e}.f-dim{fill:#59636e}.s-proxy{stroke:#b0500a}.f-proxy{fill:#b0500a}";

const DARK: &[u8] = b"\
    .bg{fill:#0d1117}.zb{fill:#131922}.nd{fill:#161d27}.ac{fill:#1f2f45}.hair{stroke:#3d444d}.bn{fill:#33270f}\
    .bi{fill:#f2cc7d}.bh{stroke:#33270f}.fn{fill:#3a161a}.fh{stroke:#3a161a}.ink{fill:#e6edf3}.dim{fill:#9aa5b1}.halo{stroke:#0d1117}\
    .bar{fill:#768390}.prx{fill:#0d1117;stroke:#f0883e}.dec{fill:#0d1117;stroke:#f0883e}.cellt{fill:#e6edf3}\
    .onf{fill:#0d1117}.k0{fill:#242b34}.kS{fill:#1d4428}.kW{fill:#5c4300}.kL{fill:#6b2129}.s-item{stroke:#79b8ff}\
    .f-item{fill:#79b8ff}.s-byp{stroke:#ffa366}.f-byp{fill:#ffa366}.s-flush{stroke:#6fd68a}.f-flush{fill:#6fd68a}\
    .s-call{stroke:#56d4d4}.f-call{fill:#56d4d4}.s-bad{stroke:#ff8a8a}.f-bad{fill:#ff8a8a}.s-word{stroke:#c3a8ff}\
    .f-word{fill:#c3a8ff}.s-dim{stroke:#9aa5b1}.f-dim{fill:#9aa5b1}.s-proxy{stroke:#f0883e}.f-proxy{fill:#f0883e}";

/// Sizes, weights and dashes.
pub fn forms() -> &'static [u8]
    ensures { length result.now ≤ 1000 }
{
    FORMS
}

/// The light colours, by class.
pub fn light() -> &'static [u8]
    ensures { length result.now ≤ 1500 }
{
    LIGHT
}

/// The dark colours, by class.
pub fn dark() -> &'static [u8]
    ensures { length result.now ≤ 1500 }
{
    DARK
}
