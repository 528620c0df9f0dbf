//! A drawing that was written by hand.

// A read of DPIDR, drawn by hand: its fields by IHI 0031, B4, and its geometry by docs/PROTOCOL.md.
pub(super) const DPIDR_DRAWING: &[u8] = b"\
    <svg xmlns='http://www.w3.org/2000/svg' version='1.1' width='672' height='212' viewBox='0 0 672 212'\
    >\n\
    <style type='text/css'>text{font-family:monospace;font-size:9px}.l{font-size:12px}.m{text-anchor:mid\
    dle}path{fill:none;stroke:#000}rect{stroke:#000}.h{fill:#cfe2f3}.t{fill:#d9ead3}.u{fill:#ccc}.w{fill\
    :#f4a6a0}.n{fill:#fff}.p{fill:#fff;stroke:none}\
    </style>\
    <rect width='672' height='100%' class='p'/>\n\
    <text x='10' y='18' class='l'>Items drawn: 1. The trace ends here.\
    </text>\
    <rect x='10' y='28' width='12' height='12' class='h'/>\
    <text x='28' y='37'>driven by the host\
    </text>\
    <rect x='142' y='28' width='12' height='12' class='t'/>\
    <text x='160' y='37'>driven by the target\
    </text>\
    <rect x='286' y='28' width='12' height='12' class='u'/>\
    <text x='304' y='37'>turnaround: not driven\
    </text>\
    <rect x='440' y='28' width='12' height='12' class='w'/>\
    <text x='458' y='37'>wrong parity\
    </text>\
    <rect x='546' y='28' width='12' height='12' class='n'/>\
    <text x='564' y='37'>not known\
    </text>\n\
    <g transform='translate(0,64)'>\
    <text x='10' y='14' class='l'>@0 dp 0 read ok 2ba01477\n\
    </text>\
    <text x='10' y='36'>SWCLK\
    </text>\
    <text x='10' y='60'>SWDIO\
    </text>\
    <path d='M58,40h6h6v-16h6v16h6v-16h6v16h6v-16h6v16h6v-16h6v16h6v-16h6v16h6v-16h6v16h6v-16h6v16h6v-16\
    h6v16h6v-16h6v16h6v-16h6v16h6v-16h6v16h6v-16h6v16h6v-16h6v16h6v-16h6v16h6v-16h6v16h6v-16h6v16h6v-16\
    h6v16h6v-16h6v16h6v-16h6v16h6v-16h6v16h6v-16h6v16h6v-16h6v16h6v-16h6v16h6v-16h6v16h6v-16h6v16h6v-16\
    h6v16h6v-16h6v16h6v-16h6v16h6v-16h6v16h6v-16h6v16h6v-16h6v16h6v-16h6v16h6v-16h6v16h6v-16h6v16h6v-16\
    h6v16h6v-16h6v16h6v-16h6v16h6v-16h6v16h6v-16h6v16h6v-16h6v16h6v-16h6v16h6v-16h6v16h6v-16h6v16h6v-16\
    h6v16h6v-16h6v16h6v-16h6v16'/>\
    <path d='M58,56h6V48h12V64h12V48h12V64h12V64h12V48h12V64h12V48h12V56h12V48h12V64h12V64h12V48h12\
    V48h12V48h12V64h12V48h12V48h12V48h12V64h12V64h12V64h12V48h12V64h12V48h12V64h12V64h12V64h12V64h12\
    V64h12V64h12V64h12V64h12V48h12V64h12V48h12V48h12V48h12V64h12V48h12V64h12V48h12V64h12V64h12V64h12\
    V56h12'/>\
    <rect x='64' y='74' width='12' height='50' class='h'/>\
    <text transform='translate(73,110)rotate(-90)'>Start\
    </text>\
    <text x='70' y='120' class='m'>1\
    </text>\n\
    <rect x='76' y='74' width='12' height='50' class='h'/>\
    <text transform='translate(85,110)rotate(-90)'>APnDP\
    </text>\
    <text x='82' y='120' class='m'>0\
    </text>\n\
    <rect x='88' y='74' width='12' height='50' class='h'/>\
    <text transform='translate(97,110)rotate(-90)'>RnW\
    </text>\
    <text x='94' y='120' class='m'>1\
    </text>\n\
    <rect x='100' y='74' width='24' height='50' class='h'/>\
    <text transform='translate(115,110)rotate(-90)'>A[2:3]\
    </text>\
    <text x='112' y='120' class='m'>00\
    </text>\n\
    <rect x='124' y='74' width='12' height='50' class='h'/>\
    <text transform='translate(133,110)rotate(-90)'>Parity\
    </text>\
    <text x='130' y='120' class='m'>1\
    </text>\n\
    <rect x='136' y='74' width='12' height='50' class='h'/>\
    <text transform='translate(145,110)rotate(-90)'>Stop\
    </text>\
    <text x='142' y='120' class='m'>0\
    </text>\n\
    <rect x='148' y='74' width='12' height='50' class='h'/>\
    <text transform='translate(157,110)rotate(-90)'>Park\
    </text>\
    <text x='154' y='120' class='m'>1\
    </text>\n\
    <rect x='160' y='74' width='12' height='50' class='u'/>\
    <text transform='translate(169,110)rotate(-90)'>Trn\
    </text>\
    <text x='166' y='120' class='m'>\
    </text>\n\
    <rect x='172' y='74' width='36' height='50' class='t'/>\
    <text x='190' y='88' class='m'>ACK\
    </text>\
    <text x='190' y='120' class='m'>OK\
    </text>\n\
    <rect x='208' y='74' width='384' height='50' class='t'/>\
    <text x='400' y='88' class='m'>RDATA[0:31]\
    </text>\
    <text x='400' y='120' class='m'>2ba01477\
    </text>\n\
    <rect x='592' y='74' width='12' height='50' class='t'/>\
    <text transform='translate(601,110)rotate(-90)'>Parity\
    </text>\
    <text x='598' y='120' class='m'>0\
    </text>\n\
    <rect x='604' y='74' width='12' height='50' class='u'/>\
    <text transform='translate(613,110)rotate(-90)'>Trn\
    </text>\
    <text x='610' y='120' class='m'>\
    </text>\n\
    </g>\n\
    </svg>\n";
